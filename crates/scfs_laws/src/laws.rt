//! What holds of every history, whatever the format of objects is; the functions only carry the laws.

ghost use Rattle.std.specs.Prelude.{◌≡◌, ◌<◌, ◌^◌, ◌∷◌, length};
ghost use Rattle.scfs_model.specs.Format.{Setup};
ghost use Rattle.scfs_model.specs.History.{Entry, History};
ghost use Rattle.scfs_laws.specs.Held.{ReadsHeld};
ghost use Rattle.scfs_model.specs.Layers.{closes, rows, row_of};
ghost use Rattle.scfs_laws.specs.Mapped as to;
ghost use Rattle.scfs_laws.specs.Newest.{OpensNewest};
ghost use Rattle.scfs_model.specs.Runs.{actual, mapped, Happens, Run};
ghost use Rattle.scfs_laws.specs.Sound.{IsSound};
ghost use Rattle.scfs_model.specs.Tree.{live};
ghost use Rattle.scfs_laws.specs.Acknowledged.{CommitsAreAcknowledged};
ghost use Rattle.scfs_laws.specs.Fences.{CommitsAreFenced};
ghost use Rattle.scfs_laws.specs.TreeLaws.{LocksAlone, NamesDiffer};

/// Where each open got from the clouds what was closed, what agents and the space have is the file map, with rows in place of closes,
/// and what happens is a run.
pub fn layers_agree()
    ensures states { (s : Setup) (past : History) → IsSound s past → actual s past ≡ to.state (row_of s) (mapped s past) }
    ensures run { (s : Setup) (past : History) → IsSound s past → Happens s past → Run s past }
{}

/// What began as a run is one: a run without its newest event is a run, and so is what happens.
pub fn runs_of_prefixes()
    ensures run { (s : Setup) (e : Entry) (past : History) → Run s (e ∷ past) → Run s past }
    ensures happens { (s : Setup) (e : Entry) (past : History) → Happens s (e ∷ past) → Happens s past }
{}

/// Whatever the clouds answer, each line of bytes read stands where its session is read, and shows the bytes that the session
/// holds, followed through events, lines and answers.
pub fn reads_are_held()
    ensures { (s : Setup) (past : History) → Happens s past → ReadsHeld s past }
{}

/// By the lines alone, of fewer than 2^24 events: each open is of the version of the last completed close of its file before its
/// request was served; version 0 is empty, and any other comes from the clouds.
pub fn opens_are_newest()
    ensures made { (s : Setup) (past : History) → length past < 2 ^ 24 → Happens s past → OpensNewest past }
    ensures due { (s : Setup) (past : History) → length past < 2 ^ 24 → Run s past → OpensNewest past }
{}

/// Each close was completed while its session's lock lived, which from its locked line on lived alone on the file; and the file was at
/// the version before.
pub fn commits_are_fenced()
    ensures made { (s : Setup) (past : History) → Happens s past → CommitsAreFenced s rows past }
    ensures due { (s : Setup) (past : History) → Run s past → CommitsAreFenced s (closes s) past }
{}

/// Each close was completed on objects of which all clouds but f had acknowledged theirs, to the agent and incarnation that asked its
/// commit, whatever else clouds answered.
pub fn commits_are_acknowledged()
    ensures { (s : Setup) (past : History) → Happens s past → CommitsAreAcknowledged s past }
{}

/// In the tree of every history no two nodes have one name below one parent, and no file has two live locks.
pub fn trees_are_whole()
    ensures names { (s : Setup) (past : History) → NamesDiffer (mapped s past).tree.nodes }
    ensures locks { (s : Setup) (past : History) → LocksAlone (live (mapped s past).clock (mapped s past).tree).locks }
    ensures made_names { (s : Setup) (past : History) → NamesDiffer (actual s past).tree.nodes }
    ensures made_locks { (s : Setup) (past : History) → LocksAlone (live (actual s past).clock (actual s past).tree).locks }
{}

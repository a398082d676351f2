ghost use Rattle.std.specs.Prelude.{◌≡◌, ℕ, List, take};
ghost use Rattle.std.specs.Str.{bytes_eq};
ghost use Rattle.scfs_cache.specs.declared.kept_answers.KeptStat.{KeptStat};
ghost use Rattle.scfs_cache.specs.Uses.{after_uses, last_uses};
ghost use Rattle.scfs_cache.specs.Cached.{Contents, same_upload, memory_limit, disk_limit};
ghost use Rattle.scfs_cache.specs.Doings.{Doing, after, memory_uses, disk_uses};
ghost use Rattle.scfs_cache.specs.Kept.{Answers};

/// A law of the lists by last use: whatever the uses were, such a list has of them, read backwards, the first different
/// uploads or paths, as many as it keeps.
pub fn last_uses_stay()
    ensures contents { (most : ℕ) (uses : Contents) → after_uses same_upload most uses ≡ take most (last_uses same_upload uses) }
    ensures stats { (most : ℕ) (uses : Answers KeptStat) → after_uses bytes_eq most uses ≡ take most (last_uses bytes_eq uses) }
    ensures lists { (most : ℕ) (uses : Answers (List (List ℕ))) → after_uses bytes_eq most uses ≡ take most (last_uses bytes_eq uses) }
{}

/// A law of the caches: whatever was looked for and kept, and whenever the agent crashed, the memory list has the first 16
/// different uploads of its uses since the last crash, read backwards, and the disk list the first 64 of its uses.
pub fn caches_have_the_last_uses()
    ensures memory { (doings : List Doing) → (after doings).memory ≡ take memory_limit (last_uses same_upload (memory_uses doings)) }
    ensures disk { (doings : List Doing) → (after doings).disk ≡ take disk_limit (last_uses same_upload (disk_uses doings)) }
{}

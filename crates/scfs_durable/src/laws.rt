//! What holds of the clouds after every history; the functions only carry the laws.

ghost use Rattle.scfs_durable.specs.Named.{NamesAreUploads};
ghost use Rattle.scfs_durable.specs.Safe.{AlwaysSafe, CommittedStay};
ghost use Rattle.scfs_durable.specs.Stores.{HidingIsStale, ServingIsFaithful, StaysTruthful};

/// After every front of a history in which at most f clouds lied, each version in the shared tree is held, under its upload's own name
/// and exactly as its upload sealed the contents of the session that was closed, by f + 1 different clouds that never lied. Nothing is
/// said of whether these clouds answer.
pub fn versions_stay_safe()
    ensures { AlwaysSafe }
{}

/// Each version that a committed line told of is in the shared tree, and so held, after every history that goes on from it in which at
/// most f clouds lied.
pub fn committed_versions_stay()
    ensures { CommittedStay }
{}

/// Each name under which a cloud holds something after a history is the name of an upload of that history, 23 bytes long.
pub fn stored_names_are_uploads()
    ensures { NamesAreUploads }
{}

/// An answer that serves a request, or is a failure, is neither a lie nor stale. One that hides what a cloud holds is stale, but where serving
/// gives the same.
pub fn serving_is_faithful()
    ensures serves { ServingIsFaithful }
    ensures hides { HidingIsStale }
{}

/// A cloud that never lied in a history, nor in new events behind it, never lied in all of it.
pub fn truthful_clouds_stay_so()
    ensures { StaysTruthful }
{}

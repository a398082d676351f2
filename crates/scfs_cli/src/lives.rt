use crate::rows::PAIR;
use crate::tests::{REPLAY, Run, expect};
use scfs_top::Status;
use std::process::Abort;
use std::test::Fail;

// Runs of two agents over four clouds in which the clock goes on and agents go down and come up. Each part of a run is its
// events and what they write. What they write was worked out by hand.

/// Agent 0 makes a file.
const MADE: (&str, &str) = (
    "call 0 create /a\nspace 0\ntold 0\n",
    "2 changed 0.0.1\n3 ok 0 create 1\n",
);

/// It opens the file for writing; the lock lives until moment 100.
const OPENED: (&str, &str) = (
    "call 0 open /a w\nspace 0\ntold 0\n",
    "5 locked 0.0.2 1 100\n6 saw 0.0.2 1 0\n6 opened 0 1 0 empty 0\n",
);

/// It writes and closes.
const CLOSING: (&str, &str) = (
    "call 0 write 1 0 6869\ncall 0 close 1\n",
    "7 ok 0 write 1 2\n\
    8 put 0.0.3 0 u/0000000000000001/0000 170 3b7e3c6bd73d59def4d4a66d158da796b9b708e516d1c4f76680ab1a743a1fb3\n\
    8 put 0.0.4 1 u/0000000000000001/0000 170 e25c092ea642e1ecc3118d36c3bb6f9e947ad2b679d0ce089564172b0fd8c543\n\
    8 put 0.0.5 2 u/0000000000000001/0000 170 888889fa9943d376cf9f4858a703802ae2b8811407057247c97c2cdd5717d15f\n\
    8 put 0.0.6 3 u/0000000000000001/0000 170 0211b39e3411be2320e8498e5d5be2d16c1f6909fb2e490739729e1bdc340a17\n",
);

/// All clouds acknowledge, and the commit waits for the space.
const ACKED: (&str, &str) = (
    "serve 0\nserve 1\nserve 2\nserve 3\ngive 0\ngive 1\ngive 2\ngive 3\n",
    "9 did 0 0.0.3 ack\n10 did 1 0.0.4 ack\n11 did 2 0.0.5 ack\n12 did 3 0.0.6 ack\n13 gave 0 0.0.3 ack\n\
    14 gave 1 0.0.4 ack\n15 gave 2 0.0.5 ack\n16 gave 3 0.0.6 ack\n",
);

/// Runs the parts one behind the other.
fn plays(rt: &(impl Abort + AllocGlobal), parts: &[(&str, &str)]) -> Result<(), Fail> {
    let mut schedule = String::from_str(rt.alloc(), PAIR)?;
    let mut lines = String::new(rt.alloc());
    for (events, written) in parts {
        schedule.push_str(events)?;
        lines.push_str(written)?;
    }
    schedule.push_str("end\n")?;
    let run = Run {
        words: &["replay"],
        input: &[schedule.as_str()],
        ..REPLAY
    };
    expect(rt, run, Status::Done, &[lines.as_str()])
}

const IN_TIME: (&str, &str) = (
    "tick 99\nspace 0\ntold 0\n",
    "18 committed 0.0.7 1 1\n19 closed 0 1 1\nstop 0 19\n",
);

const TOO_LATE: (&str, &str) = (
    "tick 100\nspace 0\ntold 0\n",
    "18 refused 0.0.7 14 LockLost\n19 no 0 14 LockLost\nstop 0 19\n",
);

// A commit is done in the last moment of its lock, and refused at the lock's end.
#[test]
fn a_commit_before_and_at_the_end_of_its_lock(rt: HostRuntime) -> Result<(), Fail> {
    plays(&rt, &[MADE, OPENED, CLOSING, ACKED, IN_TIME])?;
    plays(&rt, &[MADE, OPENED, CLOSING, ACKED, TOO_LATE])
}

const UNTOLD: (&str, &str) = (
    "space 0\ncrash 0\ntold 0\ncall 1 open /a r\nspace 1\ntold 1\n",
    "17 committed 0.0.7 1 1\n18 crashed 0\n19 gone 0.0.7\n21 looked 1.0.1\n22 saw 1.0.1 1 1\n\
    22 get 1.0.2 0 u/0000000000000001/0000\n22 get 1.0.3 1 u/0000000000000001/0000\nstop 0 22\n",
);

const UNDONE: (&str, &str) = (
    "crash 0\nstart 0\nlater 0\nspace 0\nspace 0\ntold 0\ntold 0\ncall 0 stat /a\nspace 0\ntold 0\n",
    "17 crashed 0\n18 started 0 1\n20 unlocked 0.1.1 1\n21 refused 0.0.7 14 LockLost\n22 ready 0\n\
    23 gone 0.0.7\n25 looked 0.1.2\n26 ok 0 stat file 1 0 0 fresh\nstop 0 26\n",
);

// A commit that was done stands, though its agent is never told; one that finds its lock given back is refused.
#[test]
fn a_crash_behind_and_before_a_commit(rt: HostRuntime) -> Result<(), Fail> {
    plays(&rt, &[MADE, OPENED, CLOSING, ACKED, UNTOLD])?;
    plays(&rt, &[MADE, OPENED, CLOSING, ACKED, UNDONE])
}

const AT_HALF: (&str, &str) = (
    "tick 49\nturn 0\nspace 0\ntick 1\nturn 0\nturn 0\nspace 0\nspace 0\ntold 0\n\
    tick 49\nturn 0\nspace 0\ntick 1\nturn 0\nspace 0\n",
    "9 skip\n13 renewed 0.0.3 150\n14 skip\n18 skip\n21 renewed 0.0.4 200\nstop 0 21\n",
);

// A lock is renewed when half of its life is left and not before, and never twice at once.
#[test]
fn renewals_at_half_of_a_life(rt: HostRuntime) -> Result<(), Fail> {
    plays(&rt, &[MADE, OPENED, AT_HALF])
}

const LAPSED: (&str, &str) = (
    "tick 50\nturn 0\ntick 50\nspace 0\ntold 0\nturn 0\nspace 0\ncall 0 write 1 0 6869\ncall 0 close 1\n\
    serve 0\nserve 1\nserve 2\ngive 0\ngive 1\ngive 2\nspace 0\ntold 0\n",
    "10 refused 0.0.3 14 LockLost\n11 lapsed 0 1\n13 skip\n14 ok 0 write 1 2\n\
    15 put 0.0.4 0 u/0000000000000001/0000 170 3b7e3c6bd73d59def4d4a66d158da796b9b708e516d1c4f76680ab1a743a1fb3\n\
    15 put 0.0.5 1 u/0000000000000001/0000 170 e25c092ea642e1ecc3118d36c3bb6f9e947ad2b679d0ce089564172b0fd8c543\n\
    15 put 0.0.6 2 u/0000000000000001/0000 170 888889fa9943d376cf9f4858a703802ae2b8811407057247c97c2cdd5717d15f\n\
    15 put 0.0.7 3 u/0000000000000001/0000 170 0211b39e3411be2320e8498e5d5be2d16c1f6909fb2e490739729e1bdc340a17\n\
    16 did 0 0.0.4 ack\n17 did 1 0.0.5 ack\n18 did 2 0.0.6 ack\n19 gave 0 0.0.4 ack\n20 gave 1 0.0.5 ack\n\
    21 gave 2 0.0.6 ack\n22 refused 0.0.8 14 LockLost\n23 no 0 14 LockLost\nstop 0 23\n",
);

// A renewal that comes too late is refused; the close still sends its objects, and is refused at the commit.
#[test]
fn a_session_that_lapsed(rt: HostRuntime) -> Result<(), Fail> {
    plays(&rt, &[MADE, OPENED, LAPSED])
}

const AFTER_COMMIT: (&str, &str) = (
    "tick 60\nturn 0\nspace 0\nspace 0\ntold 0\ntold 0\nturn 0\n",
    "19 committed 0.0.7 1 1\n20 refused 0.0.8 14 LockLost\n21 closed 0 1 1\n22 lapsed 0 1\nstop 0 23\n",
);

// A closed session is renewed until its commit is told, whether or not the commit was done.
#[test]
fn a_renewal_of_a_closed_session(rt: HostRuntime) -> Result<(), Fail> {
    plays(&rt, &[MADE, OPENED, CLOSING, ACKED, AFTER_COMMIT])
}

const IN_ORDER: (&str, &str) = (
    "call 0 create /b\nspace 0\ntold 0\ncall 0 open /b w\nspace 0\ntold 0\ntick 50\nturn 0\nspace 0\n\
    tick 50\nspace 0\ntold 0\ntold 0\n",
    "8 changed 0.0.3\n9 ok 0 create 2\n11 locked 0.0.4 2 100\n12 saw 0.0.4 2 0\n12 opened 0 2 0 empty 0\n\
    15 renewed 0.0.5 150\n17 refused 0.0.6 14 LockLost\n19 lapsed 0 2\nstop 0 19\n",
);

// Of two sessions that are due the first is renewed first, here in time, and the second too late.
#[test]
fn renewals_of_two_sessions(rt: HostRuntime) -> Result<(), Fail> {
    plays(&rt, &[MADE, OPENED, IN_ORDER])
}

/// Three clouds acknowledge; the last Put and the commit are on the way while the agent goes down and comes up.
const RESTARTED: (&str, &str) = (
    "serve 0\nserve 1\nserve 2\ngive 0\ngive 1\ngive 2\ncrash 0\nstart 0\n",
    "9 did 0 0.0.3 ack\n10 did 1 0.0.4 ack\n11 did 2 0.0.5 ack\n12 gave 0 0.0.3 ack\n13 gave 1 0.0.4 ack\n\
    14 gave 2 0.0.5 ack\n15 crashed 0\n16 started 0 1\n",
);

const SERVED_AFTER: (&str, &str) = (
    "later 0\nspace 0\nserve 3\ngive 3\nspace 0\ntold 0\ntold 0\ncall 0 stat /a\nspace 0\ntold 0\n",
    "18 unlocked 0.1.1 1\n19 did 3 0.0.6 ack\n20 gone 0.0.6\n21 refused 0.0.7 14 LockLost\n22 ready 0\n\
    23 gone 0.0.7\n25 looked 0.1.2\n26 ok 0 stat file 1 0 0 fresh\nstop 0 26\n",
);

const SERVED_BEFORE: (&str, &str) = (
    "serve 3\nspace 0\nspace 0\ngive 3\ntold 0\ntold 0\ncall 0 stat /a\nspace 0\ntold 0\n",
    "17 did 3 0.0.6 ack\n18 committed 0.0.7 1 1\n19 unlocked 0.1.1 0\n20 gone 0.0.6\n21 gone 0.0.7\n\
    22 ready 0\n24 looked 0.1.2\n25 ok 0 stat file 1 1 2 fresh\nstop 0 25\n",
);

// What an ended incarnation asked is served late; its commit is done only while its lock is there.
#[test]
fn a_start_while_a_close_is_on_its_way(rt: HostRuntime) -> Result<(), Fail> {
    plays(&rt, &[MADE, OPENED, CLOSING, RESTARTED, SERVED_AFTER])?;
    plays(&rt, &[MADE, OPENED, CLOSING, RESTARTED, SERVED_BEFORE])
}

const LATE_UNLOCKING: (&str, &str) = (
    "crash 0\nstart 0\ncrash 0\nstart 0\nlater 0\nspace 0\ntold 0\ncall 0 open /a w\nlater 0\nspace 0\ntold 0\n\
    space 0\ntold 0\ntick 50\nturn 0\nspace 0\ntold 0\nturn 0\nspace 0\n",
    "4 crashed 0\n5 started 0 1\n6 crashed 0\n7 started 0 2\n9 unlocked 0.2.1 0\n10 ready 0\n\
    13 locked 0.2.2 1 100\n14 saw 0.2.2 1 0\n14 opened 0 1 0 empty 0\n15 unlocked 0.1.1 1\n16 gone 0.1.1\n\
    19 refused 0.2.3 14 LockLost\n20 lapsed 0 1\n22 skip\nstop 0 22\n",
);

// The step of an earlier start takes away a lock that was taken since; that session lapses, and is not renewed again.
#[test]
fn locks_given_back_late(rt: HostRuntime) -> Result<(), Fail> {
    plays(&rt, &[MADE, LATE_UNLOCKING])
}

/// The close is completed, and agent 1 begins to read it; cloud 0 fails.
const READING: (&str, &str) = (
    "space 0\ntold 0\ncall 1 open /a r\nspace 1\ntold 1\nsay 0 fail\ngive 0\n",
    "17 committed 0.0.7 1 1\n18 closed 0 1 1\n20 looked 1.0.1\n21 saw 1.0.1 1 1\n\
    21 get 1.0.2 0 u/0000000000000001/0000\n21 get 1.0.3 1 u/0000000000000001/0000\n22 did 0 1.0.2 fail\n\
    23 gave 0 1.0.2 fail\n23 get 1.0.4 2 u/0000000000000001/0000\n",
);

const DOWN: (&str, &str) = (
    "crash 1\nserve 1\ngive 1\ncall 1 stat /a\nturn 1\ncrash 1\ntold 1\n",
    "24 crashed 1\n25 did 1 1.0.3 bytes 170 e25c092ea642e1ecc3118d36c3bb6f9e947ad2b679d0ce089564172b0fd8c543\n\
    26 gone 1.0.3\n27 skip\n28 skip\n29 skip\n30 skip\n",
);

const STARTING: (&str, &str) = (
    "start 1\nstart 1\nserve 2\ngive 2\ncall 1 stat /a\ncall 1 read 1 0 1\ncall 1 close 1\ncall 1 create /b\n\
    turn 1\nspace 1\ntold 1\ncall 1 open /a r\nspace 1\ntold 1\n",
    "31 started 1 1\n32 skip\n33 did 2 1.0.4 bytes 170 888889fa9943d376cf9f4858a703802ae2b8811407057247c97c2cdd5717d15f\n\
    34 gone 1.0.4\n35 no 1 20 Starting 0\n36 no 1 20 Starting 0\n37 no 1 20 Starting 0\n38 no 1 20 Starting 0\n\
    40 unlocked 1.1.1 0\n41 ready 1\n43 looked 1.1.2\n44 saw 1.1.2 1 1\n44 get 1.1.3 0 u/0000000000000001/0000\n\
    44 get 1.1.4 1 u/0000000000000001/0000\nstop 0 44\n",
);

// What comes to an agent that is down is skipped or gone; one that starts refuses each call until it is told that its locks are
// given back, and then all clouds are as good as new.
#[test]
fn an_agent_that_is_down_and_one_that_starts(rt: HostRuntime) -> Result<(), Fail> {
    plays(
        &rt,
        &[MADE, OPENED, CLOSING, ACKED, READING, DOWN, STARTING],
    )
}

/// With all Puts on the way the agent goes down and comes up, opens the file again, and closes.
const AGAIN: (&str, &str) = (
    "crash 0\nstart 0\nspace 0\ntold 0\ncall 0 open /a w\nspace 0\ntold 0\ncall 0 write 1 0 6e6f\ncall 0 close 1\n",
    "9 crashed 0\n10 started 0 1\n11 unlocked 0.1.1 1\n12 ready 0\n14 locked 0.1.2 1 100\n15 saw 0.1.2 1 0\n\
    15 opened 0 1 0 empty 0\n16 ok 0 write 1 2\n\
    17 put 0.1.3 0 u/0000000100000001/0000 170 079be282c174fcea586f64f8d4694d752ffbf3404d53d5fa903d2425776b01c1\n\
    17 put 0.1.4 1 u/0000000100000001/0000 170 39aae25195e65554adeaa6ebf6fdae452b89ed9207a2b229478284addcc501c8\n\
    17 put 0.1.5 2 u/0000000100000001/0000 170 8c7ebe5178db846a8c02d9b00867c6d1babbba7ec1ca387951d2ee523896a8da\n\
    17 put 0.1.6 3 u/0000000100000001/0000 170 0c0b0178dcd524bdd741e37e964910b048ba2038bc54075462fa246f3e630360\n",
);

const OLD_ANSWERS: (&str, &str) = (
    "serve 0\ngive 0\nserve 1\ngive 1\nserve 2\ngive 2\nspace 0\n",
    "18 did 0 0.0.3 ack\n19 gone 0.0.3\n20 did 1 0.0.4 ack\n21 gone 0.0.4\n22 did 2 0.0.5 ack\n23 gone 0.0.5\n\
    24 skip\n",
);

const NEW_ANSWERS: (&str, &str) = (
    "serve 0\ngive 0\nserve 1\ngive 1\nserve 2\ngive 2\nspace 0\ntold 0\n",
    "25 did 0 0.1.3 ack\n26 gave 0 0.1.3 ack\n27 did 1 0.1.4 ack\n28 gave 1 0.1.4 ack\n29 did 2 0.1.5 ack\n\
    30 gave 2 0.1.5 ack\n31 committed 0.1.7 1 1\n32 closed 0 1 1\nstop 0 32\n",
);

// Requests are numbered from 1 again; an answer to the same number of an ended incarnation counts for nobody.
#[test]
fn answers_to_an_ended_incarnation(rt: HostRuntime) -> Result<(), Fail> {
    plays(
        &rt,
        &[MADE, OPENED, CLOSING, AGAIN, OLD_ANSWERS, NEW_ANSWERS],
    )
}

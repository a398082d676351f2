use crate::tests::{REPLAY, Run, expect};
use scfs_top::Status;
use std::test::Fail;

// Runs of several agents over four or ten clouds. What they write was worked out by another implementation.

/// Two agents over four clouds.
pub const PAIR: &str = "\
    scfs 1\nf 1\nlease 100\nstale 0\n\
    agent 0 blocking 0000000000000000000000000000000000000000000000000000000000000000\n\
    agent 1 blocking 0000000000000000000000000000000000000000000000000000000000000000\nbegin\n";

/// Two agents over ten clouds.
const MANY: &str = "\
    scfs 1\nf 3\nlease 100\nstale 0\n\
    agent 0 blocking 0000000000000000000000000000000000000000000000000000000000000000\n\
    agent 1 blocking 0000000000000000000000000000000000000000000000000000000000000000\nbegin\n";

/// Three agents over four clouds.
const TRIO: &str = "\
    scfs 1\nf 1\nlease 100\nstale 0\n\
    agent 0 blocking 0000000000000000000000000000000000000000000000000000000000000000\n\
    agent 1 blocking 0000000000000000000000000000000000000000000000000000000000000000\n\
    agent 2 blocking 0000000000000000000000000000000000000000000000000000000000000000\nbegin\n";

/// Agent 0 makes a file, opens it for writing, writes and closes.
pub const BEGIN: &str = "\
    call 0 create /a\nspace 0\ntold 0\ncall 0 open /a w\nspace 0\ntold 0\ncall 0 write 1 0 6869\n\
    call 0 close 1\n";

pub const BEGUN: &str = "\
    2 changed 0.0.1\n3 ok 0 create 1\n5 locked 0.0.2 1 100\n6 saw 0.0.2 1 0\n6 opened 0 1 0 empty 0\n\
    7 ok 0 write 1 2\n\
    8 put 0.0.3 0 u/0000000000000001/0000 170 3b7e3c6bd73d59def4d4a66d158da796b9b708e516d1c4f76680ab1a743a1fb3\n\
    8 put 0.0.4 1 u/0000000000000001/0000 170 e25c092ea642e1ecc3118d36c3bb6f9e947ad2b679d0ce089564172b0fd8c543\n\
    8 put 0.0.5 2 u/0000000000000001/0000 170 888889fa9943d376cf9f4858a703802ae2b8811407057247c97c2cdd5717d15f\n\
    8 put 0.0.6 3 u/0000000000000001/0000 170 0211b39e3411be2320e8498e5d5be2d16c1f6909fb2e490739729e1bdc340a17\n";

/// All clouds store its objects, and the close is completed.
pub const CLOSE: &str =
    "serve 0\nserve 1\nserve 2\nserve 3\ngive 0\ngive 1\ngive 2\ngive 3\nspace 0\ntold 0\n";

const CLOSED: &str = "\
    9 did 0 0.0.3 ack\n10 did 1 0.0.4 ack\n11 did 2 0.0.5 ack\n12 did 3 0.0.6 ack\n13 gave 0 0.0.3 ack\n\
    14 gave 1 0.0.4 ack\n15 gave 2 0.0.5 ack\n16 gave 3 0.0.6 ack\n17 committed 0.0.7 1 1\n\
    18 closed 0 1 1\n";

/// Agent 1 opens the file.
const OPEN: &str = "call 1 open /a r\nspace 1\ntold 1\n";

const OPENING: &str = "\
    20 looked 1.0.1\n21 saw 1.0.1 1 1\n21 get 1.0.2 0 u/0000000000000001/0000\n\
    21 get 1.0.3 1 u/0000000000000001/0000\n";

const READ: &str = "serve 0\ngive 0\nserve 1\ngive 1\ncall 1 read 1 0 10\n";

const READ_LINES: &str = "\
    22 did 0 1.0.2 bytes 170 3b7e3c6bd73d59def4d4a66d158da796b9b708e516d1c4f76680ab1a743a1fb3\n\
    23 gave 0 1.0.2 bytes 170 3b7e3c6bd73d59def4d4a66d158da796b9b708e516d1c4f76680ab1a743a1fb3\n\
    24 did 1 1.0.3 bytes 170 e25c092ea642e1ecc3118d36c3bb6f9e947ad2b679d0ce089564172b0fd8c543\n\
    25 gave 1 1.0.3 bytes 170 e25c092ea642e1ecc3118d36c3bb6f9e947ad2b679d0ce089564172b0fd8c543\n\
    25 opened 1 1 1 clouds 2\n26 data 1 1 6869\nstop 0 26\n";

// A reader gets the newest close from any two of four clouds.
#[test]
fn one_writer_and_one_reader(rt: HostRuntime) -> Result<(), Fail> {
    let run = Run {
        input: &[PAIR, BEGIN, CLOSE, OPEN, READ, "end\n"],
        ..REPLAY
    };
    expect(
        &rt,
        run,
        Status::Done,
        &[BEGUN, CLOSED, OPENING, READ_LINES],
    )
}

const LIE: &str = "hide 0\ngive 0\nsay 2 bytes 00\ngive 2\nserve 1\ngive 1\nserve 3\ngive 3\n";

const LIE_LINES: &str = "\
    22 did 0 1.0.2 absent\n23 gave 0 1.0.2 absent\n23 get 1.0.4 2 u/0000000000000001/0000\n\
    24 did 2 1.0.4 bytes 1 6e340b9cffb37a989ca544e6bb780a2c78901d3fb33738768511a30617afa01d\n\
    25 gave 2 1.0.4 bytes 1 6e340b9cffb37a989ca544e6bb780a2c78901d3fb33738768511a30617afa01d\n\
    25 get 1.0.5 3 u/0000000000000001/0000\n\
    26 did 1 1.0.3 bytes 170 e25c092ea642e1ecc3118d36c3bb6f9e947ad2b679d0ce089564172b0fd8c543\n\
    27 gave 1 1.0.3 bytes 170 e25c092ea642e1ecc3118d36c3bb6f9e947ad2b679d0ce089564172b0fd8c543\n\
    28 did 3 1.0.5 bytes 170 0211b39e3411be2320e8498e5d5be2d16c1f6909fb2e490739729e1bdc340a17\n\
    29 gave 3 1.0.5 bytes 170 0211b39e3411be2320e8498e5d5be2d16c1f6909fb2e490739729e1bdc340a17\n\
    29 opened 1 1 1 clouds 2\nstop 0 29\n";

// A hidden and a false answer each ask one cloud more.
#[test]
fn a_hiding_and_a_lying_cloud(rt: HostRuntime) -> Result<(), Fail> {
    let run = Run {
        input: &[PAIR, BEGIN, CLOSE, OPEN, LIE, "end\n"],
        ..REPLAY
    };
    expect(&rt, run, Status::Done, &[BEGUN, CLOSED, OPENING, LIE_LINES])
}

const OTHER: &str = "\
    say 0 bytes 5343463101000000023b3b2c5bcf22acbf95f712c7b38fa5e5118907198cf02b13eedba4bc8b06795bd1\
    5f191ae655f74bbb1fceee6a1e53b6502e3cdc71f28a92a3a7c3fd23fe5a3b8131c3a10c45d25d437ea96f80545ef976\
    cd7f9ff3e1a269b0abb806d892b652bbe4a67b1993065e477e07c8dd9f28bd0fecf699bf0aa6466d0e445a987b642f03\
    ccb6f05695e162369de1e86b7666331b18344cb755792f1eac87ab771e362198\n\
    give 0\nserve 1\ngive 1\nserve 2\ngive 2\ncall 1 read 1 0 2\n";

const OTHER_LINES: &str = "\
    22 did 0 1.0.2 bytes 170 25a23d1bf6c13f516e65389570fff1c949512591cec5c1b63e4fb7b3724284ba\n\
    23 gave 0 1.0.2 bytes 170 25a23d1bf6c13f516e65389570fff1c949512591cec5c1b63e4fb7b3724284ba\n\
    23 get 1.0.4 2 u/0000000000000001/0000\n\
    24 did 1 1.0.3 bytes 170 e25c092ea642e1ecc3118d36c3bb6f9e947ad2b679d0ce089564172b0fd8c543\n\
    25 gave 1 1.0.3 bytes 170 e25c092ea642e1ecc3118d36c3bb6f9e947ad2b679d0ce089564172b0fd8c543\n\
    26 did 2 1.0.4 bytes 170 888889fa9943d376cf9f4858a703802ae2b8811407057247c97c2cdd5717d15f\n\
    27 gave 2 1.0.4 bytes 170 888889fa9943d376cf9f4858a703802ae2b8811407057247c97c2cdd5717d15f\n\
    27 opened 1 1 1 clouds 2\n28 data 1 1 6869\nstop 0 28\n";

// The object of another upload of equal length is refused.
#[test]
fn an_object_of_another_upload(rt: HostRuntime) -> Result<(), Fail> {
    let run = Run {
        input: &[PAIR, BEGIN, CLOSE, OPEN, OTHER, "end\n"],
        ..REPLAY
    };
    expect(
        &rt,
        run,
        Status::Done,
        &[BEGUN, CLOSED, OPENING, OTHER_LINES],
    )
}

const AGAIN: &str = "serve 1\ngive 1\nturn 1\nserve 2\ngive 2\ncall 1 read 1 1 5\n";

const AGAIN_LINES: &str = "\
    22 did 1 1.0.3 bytes 170 e25c092ea642e1ecc3118d36c3bb6f9e947ad2b679d0ce089564172b0fd8c543\n\
    23 gave 1 1.0.3 bytes 170 e25c092ea642e1ecc3118d36c3bb6f9e947ad2b679d0ce089564172b0fd8c543\n\
    24 get 1.0.4 0 u/0000000000000001/0000\n24 get 1.0.5 2 u/0000000000000001/0000\n\
    24 get 1.0.6 3 u/0000000000000001/0000\n\
    25 did 2 1.0.5 bytes 170 888889fa9943d376cf9f4858a703802ae2b8811407057247c97c2cdd5717d15f\n\
    26 gave 2 1.0.5 bytes 170 888889fa9943d376cf9f4858a703802ae2b8811407057247c97c2cdd5717d15f\n\
    26 opened 1 1 1 clouds 2\n27 data 1 1 69\nstop 0 27\n";

// A turn asks again all clouds without a good answer.
#[test]
fn a_silent_cloud_and_a_turn(rt: HostRuntime) -> Result<(), Fail> {
    let run = Run {
        input: &[PAIR, BEGIN, CLOSE, OPEN, AGAIN, "end\n"],
        ..REPLAY
    };
    expect(
        &rt,
        run,
        Status::Done,
        &[BEGUN, CLOSED, OPENING, AGAIN_LINES],
    )
}

const SPENT: &str = "\
    call 1 open /a w\nspace 1\ntold 1\nturn 1\nturn 1\nturn 1\nturn 1\nturn 1\nturn 1\nturn 1\nturn 1\n\
    call 0 open /a w\nspace 0\ntold 0\nspace 1\ntold 1\ncall 0 open /a w\nspace 0\n";

const SPENT_LINES: &str = "\
    20 locked 1.0.1 1 100\n21 saw 1.0.1 1 1\n21 get 1.0.2 0 u/0000000000000001/0000\n\
    21 get 1.0.3 1 u/0000000000000001/0000\n22 get 1.0.4 0 u/0000000000000001/0000\n\
    22 get 1.0.5 1 u/0000000000000001/0000\n22 get 1.0.6 2 u/0000000000000001/0000\n\
    22 get 1.0.7 3 u/0000000000000001/0000\n23 get 1.0.8 0 u/0000000000000001/0000\n\
    23 get 1.0.9 1 u/0000000000000001/0000\n23 get 1.0.10 2 u/0000000000000001/0000\n\
    23 get 1.0.11 3 u/0000000000000001/0000\n24 get 1.0.12 0 u/0000000000000001/0000\n\
    24 get 1.0.13 1 u/0000000000000001/0000\n24 get 1.0.14 2 u/0000000000000001/0000\n\
    24 get 1.0.15 3 u/0000000000000001/0000\n25 get 1.0.16 0 u/0000000000000001/0000\n\
    25 get 1.0.17 1 u/0000000000000001/0000\n25 get 1.0.18 2 u/0000000000000001/0000\n\
    25 get 1.0.19 3 u/0000000000000001/0000\n26 get 1.0.20 0 u/0000000000000001/0000\n\
    26 get 1.0.21 1 u/0000000000000001/0000\n26 get 1.0.22 2 u/0000000000000001/0000\n\
    26 get 1.0.23 3 u/0000000000000001/0000\n27 get 1.0.24 0 u/0000000000000001/0000\n\
    27 get 1.0.25 1 u/0000000000000001/0000\n27 get 1.0.26 2 u/0000000000000001/0000\n\
    27 get 1.0.27 3 u/0000000000000001/0000\n28 get 1.0.28 0 u/0000000000000001/0000\n\
    28 get 1.0.29 1 u/0000000000000001/0000\n28 get 1.0.30 2 u/0000000000000001/0000\n\
    28 get 1.0.31 3 u/0000000000000001/0000\n29 no 1 16 Unavailable 1 0\n31 refused 0.0.8 8 Locked 1\n\
    32 no 0 8 Locked 1\n33 unlocked 1.0.32 1\n36 locked 0.0.9 1 100\nstop 0 36\n";

// The eighth turn answers Unavailable; its lock is free once it was given back.
#[test]
fn eight_turns_give_an_open_up(rt: HostRuntime) -> Result<(), Fail> {
    let run = Run {
        input: &[PAIR, BEGIN, CLOSE, SPENT, "end\n"],
        ..REPLAY
    };
    expect(&rt, run, Status::Done, &[BEGUN, CLOSED, SPENT_LINES])
}

const TWICE: &str =
    "serve 0\ntwice 0\ngive 0\ngive 0\nserve 1\ngive 1\nspace 0\nserve 3\ngive 3\nspace 0\n";

const TWICE_LINES: &str = "\
    9 did 0 0.0.3 ack\n11 gave 0 0.0.3 ack\n12 gave 0 0.0.3 ack\n13 did 1 0.0.4 ack\n\
    14 gave 1 0.0.4 ack\n15 skip\n16 did 3 0.0.6 ack\n17 gave 3 0.0.6 ack\n18 committed 0.0.7 1 1\n\
    stop 0 18\n";

// Acknowledgements by three different clouds ask one commit.
#[test]
fn a_repeated_acknowledgement_counts_once(rt: HostRuntime) -> Result<(), Fail> {
    let run = Run {
        input: &[PAIR, BEGIN, TWICE, "end\n"],
        ..REPLAY
    };
    expect(&rt, run, Status::Done, &[BEGUN, TWICE_LINES])
}

const SHORT: &str = "\
    serve 0\ngive 0\nturn 0\nturn 0\nturn 0\nturn 0\nturn 0\nturn 0\nturn 0\nturn 0\nspace 0\ntold 0\n\
    call 0 open /a w\nspace 0\ntold 0\n";

const SHORT_LINES: &str = "\
    9 did 0 0.0.3 ack\n10 gave 0 0.0.3 ack\n\
    11 put 0.0.7 1 u/0000000000000001/0000 170 e25c092ea642e1ecc3118d36c3bb6f9e947ad2b679d0ce089564172b0fd8c543\n\
    11 put 0.0.8 2 u/0000000000000001/0000 170 888889fa9943d376cf9f4858a703802ae2b8811407057247c97c2cdd5717d15f\n\
    11 put 0.0.9 3 u/0000000000000001/0000 170 0211b39e3411be2320e8498e5d5be2d16c1f6909fb2e490739729e1bdc340a17\n\
    12 put 0.0.10 1 u/0000000000000001/0000 170 e25c092ea642e1ecc3118d36c3bb6f9e947ad2b679d0ce089564172b0fd8c543\n\
    12 put 0.0.11 2 u/0000000000000001/0000 170 888889fa9943d376cf9f4858a703802ae2b8811407057247c97c2cdd5717d15f\n\
    12 put 0.0.12 3 u/0000000000000001/0000 170 0211b39e3411be2320e8498e5d5be2d16c1f6909fb2e490739729e1bdc340a17\n\
    13 put 0.0.13 1 u/0000000000000001/0000 170 e25c092ea642e1ecc3118d36c3bb6f9e947ad2b679d0ce089564172b0fd8c543\n\
    13 put 0.0.14 2 u/0000000000000001/0000 170 888889fa9943d376cf9f4858a703802ae2b8811407057247c97c2cdd5717d15f\n\
    13 put 0.0.15 3 u/0000000000000001/0000 170 0211b39e3411be2320e8498e5d5be2d16c1f6909fb2e490739729e1bdc340a17\n\
    14 put 0.0.16 1 u/0000000000000001/0000 170 e25c092ea642e1ecc3118d36c3bb6f9e947ad2b679d0ce089564172b0fd8c543\n\
    14 put 0.0.17 2 u/0000000000000001/0000 170 888889fa9943d376cf9f4858a703802ae2b8811407057247c97c2cdd5717d15f\n\
    14 put 0.0.18 3 u/0000000000000001/0000 170 0211b39e3411be2320e8498e5d5be2d16c1f6909fb2e490739729e1bdc340a17\n\
    15 put 0.0.19 1 u/0000000000000001/0000 170 e25c092ea642e1ecc3118d36c3bb6f9e947ad2b679d0ce089564172b0fd8c543\n\
    15 put 0.0.20 2 u/0000000000000001/0000 170 888889fa9943d376cf9f4858a703802ae2b8811407057247c97c2cdd5717d15f\n\
    15 put 0.0.21 3 u/0000000000000001/0000 170 0211b39e3411be2320e8498e5d5be2d16c1f6909fb2e490739729e1bdc340a17\n\
    16 put 0.0.22 1 u/0000000000000001/0000 170 e25c092ea642e1ecc3118d36c3bb6f9e947ad2b679d0ce089564172b0fd8c543\n\
    16 put 0.0.23 2 u/0000000000000001/0000 170 888889fa9943d376cf9f4858a703802ae2b8811407057247c97c2cdd5717d15f\n\
    16 put 0.0.24 3 u/0000000000000001/0000 170 0211b39e3411be2320e8498e5d5be2d16c1f6909fb2e490739729e1bdc340a17\n\
    17 put 0.0.25 1 u/0000000000000001/0000 170 e25c092ea642e1ecc3118d36c3bb6f9e947ad2b679d0ce089564172b0fd8c543\n\
    17 put 0.0.26 2 u/0000000000000001/0000 170 888889fa9943d376cf9f4858a703802ae2b8811407057247c97c2cdd5717d15f\n\
    17 put 0.0.27 3 u/0000000000000001/0000 170 0211b39e3411be2320e8498e5d5be2d16c1f6909fb2e490739729e1bdc340a17\n\
    18 no 0 15 Short 1\n19 unlocked 0.0.28 1\n22 locked 0.0.29 1 100\n23 saw 0.0.29 1 0\n\
    23 opened 0 2 0 empty 0\nstop 0 23\n";

// The eighth turn answers Short; its lock is free once it was given back.
#[test]
fn eight_turns_give_a_close_up(rt: HostRuntime) -> Result<(), Fail> {
    let run = Run {
        input: &[PAIR, BEGIN, SHORT, "end\n"],
        ..REPLAY
    };
    expect(&rt, run, Status::Done, &[BEGUN, SHORT_LINES])
}

const RACE: &str = "\
    call 0 create /a\nspace 0\ntold 0\ncall 0 open /a w\ncall 1 open /a w\nspace 1\nspace 0\ntold 0\n\
    told 1\ncall 1 write 1 0 6f6e65\ncall 1 close 1\nserve 0\nserve 1\nserve 2\ngive 0\ngive 1\ngive 2\n\
    call 0 open /a w\nspace 1\nspace 0\ntold 0\ntold 1\n";

const RACE_LINES: &str = "\
    2 changed 0.0.1\n3 ok 0 create 1\n6 locked 1.0.1 1 100\n7 refused 0.0.2 8 Locked 1\n\
    8 no 0 8 Locked 1\n9 saw 1.0.1 1 0\n9 opened 1 1 0 empty 0\n10 ok 1 write 1 3\n\
    11 put 1.0.2 0 u/0100000000000001/0000 171 600b7c8010ba0dcbcf12d52fe6d40c980e0e6010e24ad359f9557e73f074e643\n\
    11 put 1.0.3 1 u/0100000000000001/0000 171 c7e6a7df7348da16a36b60ab299a5979e7ed340afbaa82ed54186c2f01426740\n\
    11 put 1.0.4 2 u/0100000000000001/0000 171 22afdf022c51835ce04644d0999042517e64ed3dc42215f7814aa21c085b2f95\n\
    11 put 1.0.5 3 u/0100000000000001/0000 171 d848d99cb8bd8b9c89757af4be23ef3330936b04767e7cdaf374b5ad8786bd71\n\
    12 did 0 1.0.2 ack\n13 did 1 1.0.3 ack\n14 did 2 1.0.4 ack\n15 gave 0 1.0.2 ack\n\
    16 gave 1 1.0.3 ack\n17 gave 2 1.0.4 ack\n19 committed 1.0.6 1 1\n20 locked 0.0.3 1 100\n\
    21 saw 0.0.3 1 1\n21 get 0.0.4 0 u/0100000000000001/0000\n21 get 0.0.5 1 u/0100000000000001/0000\n\
    22 closed 1 1 1\nstop 0 22\n";

// One of two agents gets the lock; the other is told whose it is.
#[test]
fn two_agents_race_for_a_lock(rt: HostRuntime) -> Result<(), Fail> {
    let run = Run {
        input: &[PAIR, RACE, "end\n"],
        ..REPLAY
    };
    expect(&rt, run, Status::Done, &[RACE_LINES])
}

const NAMES: &str = "\
    call 0 create a\ncall 0 create /\ncall 0 stat %\ncall 0 open /a/../b w\ncall 0 open /./b r\n\
    call 0 create /a//b\ncall 0 create /%ff\ncall 0 create /%c3%a9\nspace 0\ntold 0\ncall 0 stat /\n\
    space 0\ntold 0\ncall 0 create /%c3%a9/b\nspace 0\ntold 0\ncall 0 open /c/b r\nspace 0\ntold 0\n";

const NAMES_LINES: &str = "\
    1 no 0 2 BadName\n2 no 0 2 BadName\n3 no 0 2 BadName\n4 no 0 2 BadName\n5 no 0 2 BadName\n\
    6 no 0 2 BadName\n7 no 0 2 BadName\n9 changed 0.0.1\n10 ok 0 create 1\n12 looked 0.0.2\n\
    13 ok 0 stat dir 1152921504606846976 0 0 fresh\n15 refused 0.0.3 5 NotDir\n16 no 0 5 NotDir\n\
    18 refused 0.0.4 3 NoEntry\n19 no 0 3 NoEntry\nstop 0 19\n";

// Words that are no path, and names on the way that are missing or no directory.
#[test]
fn paths_and_names(rt: HostRuntime) -> Result<(), Fail> {
    let run = Run {
        input: &[PAIR, NAMES, "end\n"],
        ..REPLAY
    };
    expect(&rt, run, Status::Done, &[NAMES_LINES])
}

const SESSIONS: &str = "\
    call 0 create /a\nspace 0\ntold 0\ncall 0 open /a w\nspace 0\ntold 0\ncall 0 write 1 65535 00\n\
    call 0 write 1 65536 00\ncall 0 truncate 1 65537\ncall 0 write 1 65536 -\ncall 0 read 1 65535 5\n\
    call 0 read 2 0 1\ncall 0 read 1 65536 1\ncall 0 read 1 0 65537\ncall 0 truncate 1 3\n\
    call 0 write 1 5 0102\ncall 0 read 1 0 9\ncall 0 close 7\n";

const SESSIONS_LINES: &str = "\
    2 changed 0.0.1\n3 ok 0 create 1\n5 locked 0.0.2 1 100\n6 saw 0.0.2 1 0\n6 opened 0 1 0 empty 0\n\
    7 ok 0 write 1 65536\n8 no 0 13 TooLong\n9 no 0 13 TooLong\n10 ok 0 write 1 65536\n11 data 0 1 00\n\
    12 no 0 11 BadHandle\n13 data 0 1 -\n14 no 0 13 TooLong\n15 ok 0 truncate 1 3\n16 ok 0 write 1 7\n\
    17 data 0 1 00000000000102\n18 no 0 11 BadHandle\nstop 0 18\n";

// Reads, writes and truncates at their limits.
#[test]
fn bounds_of_a_working_copy(rt: HostRuntime) -> Result<(), Fail> {
    let run = Run {
        input: &[PAIR, SESSIONS, "end\n"],
        ..REPLAY
    };
    expect(&rt, run, Status::Done, &[SESSIONS_LINES])
}

const TEN_CLOUDS: &str = "\
    call 0 create /a\nspace 0\ntold 0\ncall 0 open /a w\nspace 0\ntold 0\ncall 0 close 1\nserve 0\n\
    serve 1\nserve 2\nserve 3\nserve 4\nserve 5\nserve 6\ngive 0\ngive 1\ngive 2\ngive 3\ngive 4\n\
    give 5\ngive 6\nspace 0\ntold 0\ncall 1 open /a r\nspace 1\ntold 1\nserve 0\ngive 0\nserve 1\n\
    give 1\nserve 2\ngive 2\nserve 3\ngive 3\n";

const TEN_CLOUDS_LINES: &str = "\
    2 changed 0.0.1\n3 ok 0 create 1\n5 locked 0.0.2 1 100\n6 saw 0.0.2 1 0\n6 opened 0 1 0 empty 0\n\
    7 put 0.0.3 0 u/0000000000000001/0000 361 43e7e9b63526f0f03b05060506e937d5916dea10f495205532c9853598e3b082\n\
    7 put 0.0.4 1 u/0000000000000001/0000 361 8254bd9f92ac8a5d8cef361c9d8d1bcce25b7616b62d77de5da93ec48a30d6b1\n\
    7 put 0.0.5 2 u/0000000000000001/0000 361 48527111cd2d42722a6ee09baee5547cc37092949e91392f3a4c7913e4857707\n\
    7 put 0.0.6 3 u/0000000000000001/0000 361 ce9aa7447641cb1709256e0afd826f5986f754c280d84e4c4b59ea742c2bc755\n\
    7 put 0.0.7 4 u/0000000000000001/0000 361 3b10f017b87198956c8b17ddd571c2bb4fd7b2810f77595858605699ac03e868\n\
    7 put 0.0.8 5 u/0000000000000001/0000 361 7031fc0ff0fa7d790dc32f818eb7578152ab0c749ec65e67e06d31253a567f40\n\
    7 put 0.0.9 6 u/0000000000000001/0000 361 bddf82c7e3466cc7913278691137679cbeff3e5667e7fcedd9d650aa18c2237f\n\
    7 put 0.0.10 7 u/0000000000000001/0000 361 8843fdcbfa17e25661eb0bfa9d70bc9df219d1e6a950069be3caaddcf5db7886\n\
    7 put 0.0.11 8 u/0000000000000001/0000 361 a4be32e5ae52c28018ab0712034beb2b27ab5ef672da185a0bef74060c98758c\n\
    7 put 0.0.12 9 u/0000000000000001/0000 361 e076dad8ec436af178a7fd913feae9d359c220013bfa632214c0a699f653341b\n\
    8 did 0 0.0.3 ack\n9 did 1 0.0.4 ack\n10 did 2 0.0.5 ack\n11 did 3 0.0.6 ack\n12 did 4 0.0.7 ack\n\
    13 did 5 0.0.8 ack\n14 did 6 0.0.9 ack\n15 gave 0 0.0.3 ack\n16 gave 1 0.0.4 ack\n\
    17 gave 2 0.0.5 ack\n18 gave 3 0.0.6 ack\n19 gave 4 0.0.7 ack\n20 gave 5 0.0.8 ack\n\
    21 gave 6 0.0.9 ack\n22 committed 0.0.13 1 1\n23 closed 0 1 1\n25 looked 1.0.1\n26 saw 1.0.1 1 1\n\
    26 get 1.0.2 0 u/0000000000000001/0000\n26 get 1.0.3 1 u/0000000000000001/0000\n\
    26 get 1.0.4 2 u/0000000000000001/0000\n26 get 1.0.5 3 u/0000000000000001/0000\n\
    27 did 0 1.0.2 bytes 361 43e7e9b63526f0f03b05060506e937d5916dea10f495205532c9853598e3b082\n\
    28 gave 0 1.0.2 bytes 361 43e7e9b63526f0f03b05060506e937d5916dea10f495205532c9853598e3b082\n\
    29 did 1 1.0.3 bytes 361 8254bd9f92ac8a5d8cef361c9d8d1bcce25b7616b62d77de5da93ec48a30d6b1\n\
    30 gave 1 1.0.3 bytes 361 8254bd9f92ac8a5d8cef361c9d8d1bcce25b7616b62d77de5da93ec48a30d6b1\n\
    31 did 2 1.0.4 bytes 361 48527111cd2d42722a6ee09baee5547cc37092949e91392f3a4c7913e4857707\n\
    32 gave 2 1.0.4 bytes 361 48527111cd2d42722a6ee09baee5547cc37092949e91392f3a4c7913e4857707\n\
    33 did 3 1.0.5 bytes 361 ce9aa7447641cb1709256e0afd826f5986f754c280d84e4c4b59ea742c2bc755\n\
    34 gave 3 1.0.5 bytes 361 ce9aa7447641cb1709256e0afd826f5986f754c280d84e4c4b59ea742c2bc755\n\
    34 opened 1 1 1 clouds 0\nstop 0 34\n";

// Seven acknowledgements complete a close, and four objects open an empty version.
#[test]
fn ten_clouds(rt: HostRuntime) -> Result<(), Fail> {
    let run = Run {
        input: &[MANY, TEN_CLOUDS, "end\n"],
        ..REPLAY
    };
    expect(&rt, run, Status::Done, &[TEN_CLOUDS_LINES])
}

const MIXED: &str = "\
    call 0 create /b\nspace 0\ntold 0\ncall 2 create /a\nspace 2\ncall 0 open /b w\nspace 0\ntold 2\n\
    call 2 open /a w\nspace 2\ntold 0\ntold 2\ncall 1 open /b w\nspace 1\ntold 1\ncall 2 close 1\n\
    serve 3\nserve 0\nserve 2\nserve 1\ngive 2\ngive 1\ngive 0\nturn 2\ncall 1 open /a w\nspace 2\n\
    space 1\ngive 3\ntold 1\ntold 2\ncall 0 write 1 0 1da49ea0\nserve 0\nserve 1\ncall 2 open /a w\n\
    give 0\ncall 0 write 1 2 cad679\ncall 0 open /b w\nspace 0\nspace 2\ntold 0\n\
    call 0 write 1 2 8f1f6adf37\ngive 1\ntold 2\ncall 1 write 2 2 981bee54fd\ncall 0 write 1 3 c27c99\n\
    call 2 open /a r\ncall 0 truncate 1 1\ncall 0 write 1 1 ff18\ncall 0 truncate 1 0\nspace 2\ntold 2\n\
    serve 1\nserve 0\ngive 1\ncall 0 close 1\ngive 0\nserve 1\nserve 2\ngive 2\ncall 2 open /b r\n\
    call 1 truncate 2 0\ncall 1 open /b r\ngive 1\nserve 3\nspace 2\ntold 2\ngive 3\nspace 0\ntold 0\n\
    serve 0\nspace 1\ntold 1\ncall 0 open /a w\ngive 0\ncall 2 close 3\nfail 1\nserve 0\ngive 1\n\
    call 2 close 4\ngive 0\nspace 0\nserve 2\ntold 0\ngive 2\ncall 0 open /a w\nspace 0\n\
    call 1 open /a r\nspace 1\ntold 1\ncall 2 open /a r\nspace 2\nserve 0\nserve 2\nturn 1\ngive 0\n\
    serve 0\ntold 0\nserve 2\ntold 2\ngive 2\ncall 0 open /a w\nserve 3\ngive 0\nspace 0\n\
    call 1 write 2 1 cd7d\ntold 0\ncall 0 open /a r\nserve 0\nspace 0\ngive 2\nserve 1\nturn 2\ngive 3\n\
    serve 3\ngive 0\nserve 1\nserve 0\ngive 3\nserve 1\ndrop 1\ncall 2 open /a r\nserve 2\ngive 1\n\
    give 2\ngive 0\ntold 0\nhide 1\nspace 2\ngive 1\ntold 2\nserve 1\nserve 0\nserve 0\ngive 1\ngive 0\n\
    give 0\nserve 2\ngive 1\ncall 2 open /b w\nspace 2\nswap 2\ntold 2\nserve 1\nserve 0\ngive 2\n\
    give 0\ngive 1\ncall 2 close 7\ncall 0 close 6\ncall 0 open /a w\n";

const MIXED_LINES: &str = "\
    2 changed 0.0.1\n3 ok 0 create 1\n5 changed 2.0.1\n7 locked 0.0.2 1 100\n\
    8 ok 2 create 144115188075855873\n10 locked 2.0.2 144115188075855873 100\n11 saw 0.0.2 1 0\n\
    11 opened 0 1 0 empty 0\n12 saw 2.0.2 144115188075855873 0\n12 opened 2 1 0 empty 0\n\
    14 refused 1.0.1 8 Locked 0\n15 no 1 8 Locked 0\n\
    16 put 2.0.3 0 u/0200000000000001/0000 169 ba7391ef2dbabf9389aa3f74388cfa80e485b495e3efefef6f5d866c1de5f148\n\
    16 put 2.0.4 1 u/0200000000000001/0000 169 8aaa81651f90c54348076568b4bcb31f881006e536322e5361801e088a28f44f\n\
    16 put 2.0.5 2 u/0200000000000001/0000 169 59ffa68b2c7785579d046610b6c46f389fdeb4c08f03df64790891cea9e615c9\n\
    16 put 2.0.6 3 u/0200000000000001/0000 169 2733f602d3946aec34ffd57671cace30ab5168e86ebb2f978e522dafb8442a93\n\
    17 did 3 2.0.6 ack\n18 did 0 2.0.3 ack\n19 did 2 2.0.5 ack\n20 did 1 2.0.4 ack\n\
    21 gave 2 2.0.5 ack\n22 gave 1 2.0.4 ack\n23 gave 0 2.0.3 ack\n\
    26 committed 2.0.7 144115188075855873 1\n27 locked 1.0.2 144115188075855873 100\n\
    28 gave 3 2.0.6 ack\n29 saw 1.0.2 144115188075855873 1\n29 get 1.0.3 0 u/0200000000000001/0000\n\
    29 get 1.0.4 1 u/0200000000000001/0000\n30 closed 2 1 1\n31 ok 0 write 1 4\n\
    32 did 0 1.0.3 bytes 169 ba7391ef2dbabf9389aa3f74388cfa80e485b495e3efefef6f5d866c1de5f148\n\
    33 did 1 1.0.4 bytes 169 8aaa81651f90c54348076568b4bcb31f881006e536322e5361801e088a28f44f\n\
    35 gave 0 1.0.3 bytes 169 ba7391ef2dbabf9389aa3f74388cfa80e485b495e3efefef6f5d866c1de5f148\n\
    36 ok 0 write 1 5\n38 refused 0.0.3 8 Locked 0\n39 refused 2.0.8 8 Locked 1\n40 no 0 8 Locked 0\n\
    41 ok 0 write 1 7\n\
    42 gave 1 1.0.4 bytes 169 8aaa81651f90c54348076568b4bcb31f881006e536322e5361801e088a28f44f\n\
    42 opened 1 2 1 clouds 0\n43 no 2 8 Locked 1\n44 ok 1 write 2 7\n45 ok 0 write 1 7\n\
    47 ok 0 truncate 1 1\n48 ok 0 write 1 3\n49 ok 0 truncate 1 0\n50 looked 2.0.9\n\
    51 saw 2.0.9 144115188075855873 1\n51 get 2.0.10 0 u/0200000000000001/0000\n\
    51 get 2.0.11 1 u/0200000000000001/0000\n\
    52 did 1 2.0.11 bytes 169 8aaa81651f90c54348076568b4bcb31f881006e536322e5361801e088a28f44f\n\
    53 did 0 2.0.10 bytes 169 ba7391ef2dbabf9389aa3f74388cfa80e485b495e3efefef6f5d866c1de5f148\n\
    54 gave 1 2.0.11 bytes 169 8aaa81651f90c54348076568b4bcb31f881006e536322e5361801e088a28f44f\n\
    55 put 0.0.4 0 u/0000000000000001/0000 169 d8215f2f9047d6b6a7faf672df1767d028569679f4ab43930bd13c3481b9820d\n\
    55 put 0.0.5 1 u/0000000000000001/0000 169 1129bdbbd3c507d4a62dc6e0e74942a490236f15f349f645b41fb711b265f897\n\
    55 put 0.0.6 2 u/0000000000000001/0000 169 617830cf95ff04131aecfb955b6f8c861c6b99228833a55bb6c04bbbd77dc48c\n\
    55 put 0.0.7 3 u/0000000000000001/0000 169 3e634bac1212ebee1894b89a2ef7e00bb918b6fd5f895a142ece815a359c39e8\n\
    56 gave 0 2.0.10 bytes 169 ba7391ef2dbabf9389aa3f74388cfa80e485b495e3efefef6f5d866c1de5f148\n\
    56 opened 2 3 1 clouds 0\n57 did 1 0.0.5 ack\n58 did 2 0.0.6 ack\n59 gave 2 0.0.6 ack\n\
    61 ok 1 truncate 2 0\n63 gave 1 0.0.5 ack\n64 did 3 0.0.7 ack\n65 looked 2.0.12\n66 saw 2.0.12 1 0\n\
    66 opened 2 4 0 empty 0\n67 gave 3 0.0.7 ack\n68 committed 0.0.8 1 1\n69 closed 0 1 1\n\
    70 did 0 0.0.4 ack\n71 looked 1.0.5\n72 saw 1.0.5 1 1\n72 get 1.0.6 0 u/0000000000000001/0000\n\
    72 get 1.0.7 1 u/0000000000000001/0000\n74 gave 0 0.0.4 ack\n75 ok 2 close 3\n76 did 1 1.0.7 fail\n\
    77 did 0 1.0.6 bytes 169 d8215f2f9047d6b6a7faf672df1767d028569679f4ab43930bd13c3481b9820d\n\
    78 gave 1 1.0.7 fail\n78 get 1.0.8 2 u/0000000000000001/0000\n79 ok 2 close 4\n\
    80 gave 0 1.0.6 bytes 169 d8215f2f9047d6b6a7faf672df1767d028569679f4ab43930bd13c3481b9820d\n\
    81 refused 0.0.9 8 Locked 1\n\
    82 did 2 1.0.8 bytes 169 617830cf95ff04131aecfb955b6f8c861c6b99228833a55bb6c04bbbd77dc48c\n\
    83 no 0 8 Locked 1\n\
    84 gave 2 1.0.8 bytes 169 617830cf95ff04131aecfb955b6f8c861c6b99228833a55bb6c04bbbd77dc48c\n\
    84 opened 1 3 1 clouds 0\n86 refused 0.0.10 8 Locked 1\n88 looked 1.0.9\n\
    89 saw 1.0.9 144115188075855873 1\n89 get 1.0.10 0 u/0200000000000001/0000\n\
    89 get 1.0.11 2 u/0200000000000001/0000\n91 looked 2.0.13\n\
    92 did 0 1.0.10 bytes 169 ba7391ef2dbabf9389aa3f74388cfa80e485b495e3efefef6f5d866c1de5f148\n\
    93 did 2 1.0.11 bytes 169 59ffa68b2c7785579d046610b6c46f389fdeb4c08f03df64790891cea9e615c9\n\
    94 get 1.0.12 0 u/0200000000000001/0000\n94 get 1.0.13 2 u/0200000000000001/0000\n\
    94 get 1.0.14 3 u/0200000000000001/0000\n94 get 1.0.15 1 u/0200000000000001/0000\n\
    95 gave 0 1.0.10 bytes 169 ba7391ef2dbabf9389aa3f74388cfa80e485b495e3efefef6f5d866c1de5f148\n\
    96 did 0 1.0.12 bytes 169 ba7391ef2dbabf9389aa3f74388cfa80e485b495e3efefef6f5d866c1de5f148\n\
    97 no 0 8 Locked 1\n\
    98 did 2 1.0.13 bytes 169 59ffa68b2c7785579d046610b6c46f389fdeb4c08f03df64790891cea9e615c9\n\
    99 saw 2.0.13 144115188075855873 1\n99 get 2.0.14 0 u/0200000000000001/0000\n\
    99 get 2.0.15 1 u/0200000000000001/0000\n\
    100 gave 2 1.0.11 bytes 169 59ffa68b2c7785579d046610b6c46f389fdeb4c08f03df64790891cea9e615c9\n\
    100 opened 1 4 1 clouds 0\n\
    102 did 3 1.0.14 bytes 169 2733f602d3946aec34ffd57671cace30ab5168e86ebb2f978e522dafb8442a93\n\
    103 gave 0 1.0.12 bytes 169 ba7391ef2dbabf9389aa3f74388cfa80e485b495e3efefef6f5d866c1de5f148\n\
    104 refused 0.0.11 8 Locked 1\n105 ok 1 write 2 3\n106 no 0 8 Locked 1\n\
    108 did 0 2.0.14 bytes 169 ba7391ef2dbabf9389aa3f74388cfa80e485b495e3efefef6f5d866c1de5f148\n\
    109 looked 0.0.12\n\
    110 gave 2 1.0.13 bytes 169 59ffa68b2c7785579d046610b6c46f389fdeb4c08f03df64790891cea9e615c9\n\
    111 did 1 1.0.15 bytes 169 8aaa81651f90c54348076568b4bcb31f881006e536322e5361801e088a28f44f\n\
    112 get 2.0.16 0 u/0200000000000001/0000\n112 get 2.0.17 1 u/0200000000000001/0000\n\
    112 get 2.0.18 2 u/0200000000000001/0000\n112 get 2.0.19 3 u/0200000000000001/0000\n\
    113 gave 3 1.0.14 bytes 169 2733f602d3946aec34ffd57671cace30ab5168e86ebb2f978e522dafb8442a93\n\
    114 did 3 2.0.19 bytes 169 2733f602d3946aec34ffd57671cace30ab5168e86ebb2f978e522dafb8442a93\n\
    115 gave 0 2.0.14 bytes 169 ba7391ef2dbabf9389aa3f74388cfa80e485b495e3efefef6f5d866c1de5f148\n\
    116 did 1 2.0.15 bytes 169 8aaa81651f90c54348076568b4bcb31f881006e536322e5361801e088a28f44f\n\
    117 did 0 2.0.16 bytes 169 ba7391ef2dbabf9389aa3f74388cfa80e485b495e3efefef6f5d866c1de5f148\n\
    118 gave 3 2.0.19 bytes 169 2733f602d3946aec34ffd57671cace30ab5168e86ebb2f978e522dafb8442a93\n\
    118 opened 2 5 1 clouds 0\n\
    119 did 1 2.0.17 bytes 169 8aaa81651f90c54348076568b4bcb31f881006e536322e5361801e088a28f44f\n\
    122 did 2 2.0.18 bytes 169 59ffa68b2c7785579d046610b6c46f389fdeb4c08f03df64790891cea9e615c9\n\
    123 gave 1 2.0.15 bytes 169 8aaa81651f90c54348076568b4bcb31f881006e536322e5361801e088a28f44f\n\
    124 gave 2 2.0.18 bytes 169 59ffa68b2c7785579d046610b6c46f389fdeb4c08f03df64790891cea9e615c9\n\
    125 gave 0 2.0.16 bytes 169 ba7391ef2dbabf9389aa3f74388cfa80e485b495e3efefef6f5d866c1de5f148\n\
    126 saw 0.0.12 144115188075855873 1\n126 get 0.0.13 0 u/0200000000000001/0000\n\
    126 get 0.0.14 1 u/0200000000000001/0000\n127 did 1 0.0.14 absent\n128 looked 2.0.20\n\
    129 gave 1 2.0.17 bytes 169 8aaa81651f90c54348076568b4bcb31f881006e536322e5361801e088a28f44f\n\
    130 saw 2.0.20 144115188075855873 1\n130 get 2.0.21 0 u/0200000000000001/0000\n\
    130 get 2.0.22 1 u/0200000000000001/0000\n\
    131 did 1 2.0.22 bytes 169 8aaa81651f90c54348076568b4bcb31f881006e536322e5361801e088a28f44f\n\
    132 did 0 0.0.13 bytes 169 ba7391ef2dbabf9389aa3f74388cfa80e485b495e3efefef6f5d866c1de5f148\n\
    133 did 0 2.0.21 bytes 169 ba7391ef2dbabf9389aa3f74388cfa80e485b495e3efefef6f5d866c1de5f148\n\
    134 gave 1 0.0.14 absent\n134 get 0.0.15 2 u/0200000000000001/0000\n\
    135 gave 0 0.0.13 bytes 169 ba7391ef2dbabf9389aa3f74388cfa80e485b495e3efefef6f5d866c1de5f148\n\
    136 gave 0 2.0.21 bytes 169 ba7391ef2dbabf9389aa3f74388cfa80e485b495e3efefef6f5d866c1de5f148\n\
    137 did 2 0.0.15 bytes 169 59ffa68b2c7785579d046610b6c46f389fdeb4c08f03df64790891cea9e615c9\n\
    138 gave 1 2.0.22 bytes 169 8aaa81651f90c54348076568b4bcb31f881006e536322e5361801e088a28f44f\n\
    138 opened 2 6 1 clouds 0\n140 locked 2.0.23 1 100\n142 saw 2.0.23 1 1\n\
    142 get 2.0.24 0 u/0000000000000001/0000\n142 get 2.0.25 1 u/0000000000000001/0000\n\
    143 did 1 2.0.25 bytes 169 1129bdbbd3c507d4a62dc6e0e74942a490236f15f349f645b41fb711b265f897\n\
    144 did 0 2.0.24 bytes 169 d8215f2f9047d6b6a7faf672df1767d028569679f4ab43930bd13c3481b9820d\n\
    145 gave 2 0.0.15 bytes 169 59ffa68b2c7785579d046610b6c46f389fdeb4c08f03df64790891cea9e615c9\n\
    145 opened 0 6 1 clouds 0\n\
    146 gave 0 2.0.24 bytes 169 d8215f2f9047d6b6a7faf672df1767d028569679f4ab43930bd13c3481b9820d\n\
    147 gave 1 2.0.25 bytes 169 1129bdbbd3c507d4a62dc6e0e74942a490236f15f349f645b41fb711b265f897\n\
    147 opened 2 7 1 clouds 0\n\
    148 put 2.0.26 0 u/0200000000000002/0000 169 37e02a9e4c08e79cb0f9809ae2d5a582842d6244819e8e324a4a523015155b63\n\
    148 put 2.0.27 1 u/0200000000000002/0000 169 29fc89b543b89609c0d41da24fb92162da26b4830cc76a745c8e50980e3161fd\n\
    148 put 2.0.28 2 u/0200000000000002/0000 169 85f2240a01477c2a22032c89b366f4f1eb75094cd0039ea7047c8eada2ee02b3\n\
    148 put 2.0.29 3 u/0200000000000002/0000 169 141b06863ca3dc84fefc4805528662cf8e51b4a29ee0a647f4d0a69b6ada793b\n\
    149 ok 0 close 6\nstop 0 150\n";

// Three agents, and every event on queues and clouds.
#[test]
fn a_mixed_run(rt: HostRuntime) -> Result<(), Fail> {
    let run = Run {
        input: &[TRIO, MIXED, "end\n"],
        ..REPLAY
    };
    expect(&rt, run, Status::Done, &[MIXED_LINES])
}

// A rule that reads the clouds with the fewest good answers first asks the same clouds of an agent's first open.
#[test]
fn another_rank_rule(rt: HostRuntime) -> Result<(), Fail> {
    let run = Run {
        input: &[PAIR, BEGIN, CLOSE, OPEN, READ, "end\n"],
        by_good: true,
        ..REPLAY
    };
    expect(
        &rt,
        run,
        Status::Done,
        &[BEGUN, CLOSED, OPENING, READ_LINES],
    )
}

ghost use Rattle.scfs_tuples.specs.Steps.{IsStep};

use super::checking::checked;
use super::notation::{read, show_reply, show_tuples};
use crate::{PlainSpace, Reply, Space, Step, Steps, Tuple};
use scfs_base::{Bytes, Memory};
use std::alloc::Global;

/// A moment, a step, the reply, and the tuples left.
type Row = (u8, &'static str, &'static str, &'static str);

fn shown(alloc: Global, reply: &Reply, tuples: &[Tuple]) -> Result<Bytes, Memory> {
    let mut out = Bytes::new(alloc);
    show_reply(&mut out, reply)?;
    out.extend(b" | ")?;
    show_tuples(&mut out, tuples)?;
    Ok(out)
}

fn wanted(alloc: Global, reply: &str, tuples: &str) -> Result<Bytes, Memory> {
    let mut out = Bytes::new(alloc);
    out.extend(reply.as_bytes())?;
    out.extend(b" | ")?;
    out.extend(tuples.as_bytes())?;
    Ok(out)
}

/// What a step shows on the maps.
fn on_maps(alloc: Global, space: &mut Space, now: u8, step: &Step) -> Result<Bytes, Memory>
    requires { IsStep step.now }
{
    let reply = space.act(u64::from(now), step)?;
    let left = space.tuples()?;
    Ok(shown(alloc, &reply, left.as_slice())?)
}

/// What a step shows on the plain list.
fn on_list(alloc: Global, plain: &mut PlainSpace, now: u8, step: &Step) -> Result<Bytes, Memory>
    requires { IsStep step.now }
{
    let reply = plain.act(u64::from(now), step)?;
    Ok(shown(alloc, &reply, plain.tuples())?)
}

/// Whether a row comes out, on the maps and on the plain list.
fn holds(
    alloc: Global,
    space: &mut Space,
    plain: &mut PlainSpace,
    row: &Row,
) -> Result<bool, Memory> {
    let (now, text, reply, tuples) = row;
    let step = read(alloc, text.as_bytes())?;
    if !checked(&step) {
        return Ok(false);
    }
    let want = wanted(alloc, reply, tuples)?;
    let by_maps = on_maps(alloc, space, *now, &step)?;
    let by_list = on_list(alloc, plain, *now, &step)?;
    Ok(by_maps.as_slice() == want.as_slice() && by_list.as_slice() == want.as_slice())
}

/// The place of the first row that does not come out.
fn failing(alloc: Global, rows: &[Row]) -> Result<Option<usize>, Memory> {
    let mut space = Space::new(alloc);
    let mut plain = PlainSpace::new(alloc);
    for (at, row) in rows.iter().enumerate() {
        if !holds(alloc, &mut space, &mut plain, row)? {
            return Ok(Some(at));
        }
    }
    Ok(None)
}

#[test]
fn conditions_are_tested_in_order(rt: HostRuntime) -> Result<(), Memory> {
    let rows = [
        (0, "p7", "did - 0", "7"),
        (0, "t7;x7;p8", "did - 0", "8"),
        (0, "t8;n9;p7", "no 1", "8"),
        (0, "x8", "no 0 8", "8"),
        (0, "x9", "did - 0", "8"),
        (0, "n8", "did - 0", "8"),
        (0, "n9", "no 0", "8"),
        (0, "n88", "no 0", "8"),
        (0, "t8;t8", "no 1", "8"),
        (0, "t8;x8", "did - 0", ""),
        (0, "p8;p8", "did - 0", "8 8"),
        (0, "t8;t8", "did - 0", ""),
        (0, "p8;p8;p9", "did - 0", "8 8 9"),
        (0, "t8;T8", "did - 1", "9"),
        (0, "p8;p8", "did - 0", "9 8 8"),
        (0, "T8;n8", "no 1", "9 8 8"),
        (0, "T8;x8;p8", "did - 2", "9 8"),
        (0, "T_;T_", "did - 2", ""),
        (0, "T_", "did - 0", ""),
    ];
    assert_eq!(rt; failing(rt.alloc(), &rows)?, None);
    Ok(())
}

#[test]
fn variables_bind_and_compare(rt: HostRuntime) -> Result<(), Memory> {
    let rows = [
        (0, "pa17;pa27;pb17;pa18", "did - 0", "a17 a27 b17 a18"),
        (0, "na$07", "did 1 0", "a17 a27 b17 a18"),
        (0, "n$0$17", "did a1 0", "a17 a27 b17 a18"),
        (0, "na$08;nb$07", "did 1 0", "a17 a27 b17 a18"),
        (0, "na2$0;nb1$0", "did 7 0", "a17 a27 b17 a18"),
        (0, "na$08;nb2$1;nb$0_", "no 1", "a17 a27 b17 a18"),
        (0, "nb$07;xa$07", "no 1 a17", "a17 a27 b17 a18"),
        (0, "na27;xa$09", "did - 0", "a17 a27 b17 a18"),
        (0, "xb$09;nb$0_", "did 1 0", "a17 a27 b17 a18"),
        (0, "n$0__;n$1$07", "no 1", "a17 a27 b17 a18"),
        (
            0,
            "na$0$1;n$2$0$1;p$2$1$0",
            "did 17a 0",
            "a17 a27 b17 a18 a71",
        ),
        (0, "t$0$0_", "no 0", "a17 a27 b17 a18 a71"),
        (0, "paa1", "did - 0", "a17 a27 b17 a18 a71 aa1"),
        (0, "x$0$0_", "no 0 aa1", "a17 a27 b17 a18 a71 aa1"),
        (0, "t$0$0_;p$0", "did a 0", "a17 a27 b17 a18 a71 a"),
        (0, "ta17;na$07", "did 2 0", "a27 b17 a18 a71 a"),
        (0, "n_$08;T_$0_", "did 1 2", "a27 a71 a"),
        (0, "Ta__", "did - 2", "a"),
    ];
    assert_eq!(rt; failing(rt.alloc(), &rows)?, None);
    Ok(())
}

#[test]
fn rows_show_the_tuples_before_the_step(rt: HostRuntime) -> Result<(), Memory> {
    let rows = [
        (0, "pd1;pd2;pe1", "did - 0", "d1 d2 e1"),
        (0, "ad_", "did - 0 (d1 d2)", "d1 d2 e1"),
        (0, "nd$0;a_$0", "did 1 0 (d1 e1)", "d1 d2 e1"),
        (0, "a_$5;a$5$5", "did - 0 (d1 d2 e1) (d1 d2 e1)", "d1 d2 e1"),
        (0, "td1;a__;pf1", "did - 0 (d1 d2 e1)", "d2 e1 f1"),
        (0, "td1;a__", "no 0", "d2 e1 f1"),
        (0, "td2;Te1;a__;a_1", "did - 1 (d2 e1 f1) (e1 f1)", "f1"),
        (0, "a9", "did - 0 ()", "f1"),
    ];
    assert_eq!(rt; failing(rt.alloc(), &rows)?, None);
    Ok(())
}

#[test]
fn lives_end_at_their_moment(rt: HostRuntime) -> Result<(), Memory> {
    let rows = [
        (3, "pa+2;pb+1;pc", "did - 0", "a<5 b<4 c"),
        (3, "na;nb;nc", "did - 0", "a<5 b<4 c"),
        (4, "nb", "no 0", "a<5 c"),
        (4, "na", "did - 0", "a<5 c"),
        (5, "a_", "did - 0 (c)", "c"),
        (5, "p@+0", "did - 0", "c 5<5"),
        (5, "x5", "did - 0", "c"),
        (6, "p@+1;pd+3", "did - 0", "c 6<7 d<9"),
        (6, "Td;pd+1", "did - 1", "c 6<7 d<7"),
        (7, "T_", "did - 1", ""),
        (2, "pz+1", "did - 0", "z<3"),
        (1, "nz", "did - 0", "z<3"),
        (3, "nz", "no 0", ""),
    ];
    assert_eq!(rt; failing(rt.alloc(), &rows)?, None);
    Ok(())
}

/// How many looks a step takes after another one, at the moment 0.
fn looked(alloc: Global, before: &str, text: &str) -> Result<Option<u64>, Memory> {
    let puts = read(alloc, before.as_bytes())?;
    let step = read(alloc, text.as_bytes())?;
    if !checked(&puts) || !checked(&step) {
        return Ok(None);
    }
    let mut space = Space::new(alloc);
    space.act(0, &puts)?;
    let mut steps = Steps { looked: 0 };
    space.act_counted(0, &step, &mut steps)?;
    Ok(Some(steps.looked))
}

/// A step looks at no more tuples than those equal in the first field, and in the second or third field where that is fixed,
/// whichever are fewer: puts, a step, and the most looks.
#[test]
fn fixed_fields_save_looks(rt: HostRuntime) -> Result<(), Memory> {
    let rows = [
        ("pa17;pa27;pb17;pa18", "na$07", 2),
        ("pa11;pa12;pa13;pa14;pa15;pa25;pa16;pb16", "na16", 1),
        ("pa11;pa12;pa13;pa14;pa15;pa25;pa16;pb16", "aa15", 2),
        ("pa11;pa12;pa13;pa14;pa15;pa25;pa16;pb16", "Ta25", 1),
        ("pa11;pa12;pa13;pa14;pa15;pa25;pa16;pb16", "xa17", 0),
    ];
    for (puts, step, most) in &rows {
        let count = looked(rt.alloc(), puts, step)?;
        assert!(rt; count.is_some_and(|count| count <= *most));
    }
    Ok(())
}

/// The longest life at the last moment.
#[test]
fn the_longest_life_fits(rt: HostRuntime) -> Result<(), Memory> {
    let alloc = rt.alloc();
    let mut space = Space::new(alloc);
    let mut step = read(alloc, b"p7+1")?;
    let last = (1u64 << 62) - 1;
    if let Some(mut template) = step.puts.pop_front() {
        template.life = Some(last);
        step.puts.push(template)?;
    }
    assert!(rt; checked(&step));
    space.act(last, &step)?;
    let left = space.tuples()?;
    assert_eq!(rt; left.get(0).and_then(|tuple| tuple.until), Some(2 * last));
    Ok(())
}

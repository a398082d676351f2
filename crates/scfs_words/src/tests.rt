use crate::{Command, command_of};
use std::alloc::Global;
use std::test::Fail;

/// What the words come to.
fn command(alloc: Global, words: &[&str]) -> Result<Option<Command>, Fail> {
    let mut owned = Vec::new(alloc);
    for word in words {
        owned.push(String::from_str(alloc, word)?)?;
    }
    Ok(command_of(alloc, &owned)?)
}

#[test]
fn a_name_alone_is_its_command(rt: HostRuntime) -> Result<(), Fail> {
    assert_eq!(rt; command(rt.alloc(), &["replay"])?, Some(Command::Replay));
    assert_eq!(rt; command(rt.alloc(), &["dump"])?, Some(Command::Dump));
    assert_eq!(rt; command(rt.alloc(), &["run"])?, Some(Command::Run));
    Ok(())
}

#[test]
fn no_word_another_word_and_a_flag_are_no_command(rt: HostRuntime) -> Result<(), Fail> {
    assert_eq!(rt; command(rt.alloc(), &[])?, None);
    for word in [
        "", "re", "replays", "Replay", "help", "-", "--", "-h", "--help", "-V", "--run", "-é",
    ] {
        assert_eq!(rt; command(rt.alloc(), &[word])?, None, "at {word}");
    }
    Ok(())
}

#[test]
fn more_words_are_no_command(rt: HostRuntime) -> Result<(), Fail> {
    let rows = [
        ["replay", "now"],
        ["run", "x"],
        ["run", "run"],
        ["run", "--"],
        ["--", "run"],
        ["-h", "run"],
        ["dump", ""],
    ];
    for row in rows {
        assert_eq!(rt; command(rt.alloc(), &row)?, None);
    }
    Ok(())
}

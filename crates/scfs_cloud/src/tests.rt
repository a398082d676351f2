use crate::{Cloud, CloudFault, DirCloud, MemCloud, SaidCloud, ask_cloud};
use scfs_base::{Bytes, CloudAnswer, CloudRequest, Memory, NameList};
use std::alloc::Global;
use std::fs;
use std::test::Fail;

/// The bytes, allocated.
fn bytes(alloc: Global, text: &[u8]) -> Result<Bytes, Memory> {
    Bytes::from_slice(alloc, text)
}

fn put(alloc: Global, name: &[u8], body: &[u8]) -> Result<CloudRequest, Memory> {
    Ok(CloudRequest::Put {
        name: bytes(alloc, name)?,
        body: bytes(alloc, body)?,
    })
}

fn get(alloc: Global, name: &[u8], limit: u32) -> Result<CloudRequest, Memory> {
    let name = bytes(alloc, name)?;
    Ok(CloudRequest::Get { name, limit })
}

fn delete(alloc: Global, name: &[u8]) -> Result<CloudRequest, Memory> {
    let name = bytes(alloc, name)?;
    Ok(CloudRequest::Delete { name })
}

fn list(alloc: Global, prefix: &[u8]) -> Result<CloudRequest, Memory> {
    let prefix = bytes(alloc, prefix)?;
    Ok(CloudRequest::List { prefix })
}

/// A short text for an answer.
fn shown(alloc: Global, answer: &CloudAnswer) -> Result<Bytes, Memory> {
    match answer {
        CloudAnswer::Ack => bytes(alloc, b"ack"),
        CloudAnswer::Absent => bytes(alloc, b"absent"),
        CloudAnswer::Bytes(bytes) => bytes.copy(alloc),
        CloudAnswer::Names(names) => {
            let mut text = bytes(alloc, b"names")?;
            for name in names.as_slice() {
                text.push(b' ')?;
                text.extend(name.as_slice())?;
            }
            Ok(text)
        }
        CloudAnswer::Fail => bytes(alloc, b"fail"),
    }
}

/// Whether a cloud that is asked this gives the answer with that short text.
fn says<C: Cloud>(
    alloc: Global,
    cloud: &mut C,
    request: CloudRequest,
    text: &[u8],
) -> Result<bool, Memory> {
    let answer = ask_cloud(alloc, cloud, &request)?;
    let shown = shown(alloc, &answer)?;
    Ok(shown.as_slice() == text)
}

#[test]
fn a_truthful_cloud(rt: HostRuntime) -> Result<(), Fail> {
    let alloc = rt.alloc();
    let mut cloud = MemCloud::new(alloc, vec![in alloc; 3, 9]?);
    assert!(rt; says(alloc, &mut cloud, put(alloc, b"u/1", b"one")?, b"ack")?);
    assert!(rt; says(alloc, &mut cloud, get(alloc, b"u/1", 2)?, b"on")?);
    assert!(rt; says(alloc, &mut cloud, put(alloc, b"u/1", b"two")?, b"fail")?);
    assert!(rt; says(alloc, &mut cloud, get(alloc, b"u/1", 9)?, b"one")?);
    assert!(rt; says(alloc, &mut cloud, put(alloc, b"u/2", b"")?, b"ack")?);
    assert!(rt; says(alloc, &mut cloud, list(alloc, b"u/")?, b"names u/1 u/2")?);
    assert!(rt; says(alloc, &mut cloud, delete(alloc, b"u/1")?, b"ack")?);
    assert!(rt; says(alloc, &mut cloud, get(alloc, b"u/1", 9)?, b"absent")?);
    assert!(rt; says(alloc, &mut cloud, list(alloc, b"u/")?, b"fail")?);
    assert_eq!(rt; cloud.log().len(), 9);
    let third = shown(alloc, &cloud.log()[2].answer)?;
    assert_eq!(rt; third.as_slice(), b"fail".as_slice());
    Ok(())
}

#[test]
fn answers_that_are_said(rt: HostRuntime) -> Result<(), Fail> {
    let alloc = rt.alloc();
    let mut answers = Vec::new(alloc);
    answers.push(CloudAnswer::Ack)?;
    answers.push(CloudAnswer::Bytes(bytes(alloc, b"lie")?))?;
    answers.push(CloudAnswer::Absent)?;
    answers.push(CloudAnswer::Fail)?;
    answers.push(CloudAnswer::Names(NameList::new(alloc)))?;
    let mut cloud = SaidCloud::new(alloc, answers);
    assert!(rt; says(alloc, &mut cloud, put(alloc, b"n", b"true")?, b"ack")?);
    assert!(rt; says(alloc, &mut cloud, get(alloc, b"n", 9)?, b"lie")?);
    assert!(rt; says(alloc, &mut cloud, delete(alloc, b"n")?, b"fail")?);
    assert!(rt; says(alloc, &mut cloud, get(alloc, b"n", 9)?, b"fail")?);
    assert!(rt; says(alloc, &mut cloud, list(alloc, b"n")?, b"names")?);
    assert!(rt; says(alloc, &mut cloud, list(alloc, b"n")?, b"fail")?);
    assert_eq!(rt; cloud.log().len(), 6);
    Ok(())
}

/// The names with one letter, from `q` down to `a`, and before them 65 times the letter `z`.
fn many_names(alloc: Global) -> Result<NameList, Memory> {
    let mut names = NameList::new(alloc);
    names.push(bytes(alloc, [b'z'; 65].as_slice())?)?;
    for letter in (b'a'..b'r').rev() {
        names.push(bytes(alloc, &[letter])?)?;
    }
    Ok(names)
}

#[test]
fn what_is_kept_of_answers(rt: HostRuntime) -> Result<(), Fail> {
    let alloc = rt.alloc();
    let mut answers = Vec::new(alloc);
    answers.push(CloudAnswer::Bytes(bytes(alloc, b"abc")?))?;
    answers.push(CloudAnswer::Names(many_names(alloc)?))?;
    let mut cloud = SaidCloud::new(alloc, answers);
    assert!(rt; says(alloc, &mut cloud, get(alloc, b"n", 2)?, b"ab")?);
    let mut kept = bytes(alloc, b"names c d e f g h i j k l m n o p q ")?;
    kept.extend([b'z'; 64].as_slice())?;
    assert!(rt; says(alloc, &mut cloud, list(alloc, b"")?, kept.as_slice())?);
    Ok(())
}

#[test]
fn a_folder_is_a_cloud(rt: HostRuntime) -> Result<(), Fail> {
    let alloc = rt.alloc();
    let mut cloud = DirCloud::new(alloc, &rt, "cloud-of-test");
    assert!(rt; says(alloc, &mut cloud, list(alloc, b"u/")?, b"names")?);
    assert!(rt; says(alloc, &mut cloud, get(alloc, b"u/01/0000", 9)?, b"absent")?);
    assert!(rt;
        says(
            alloc,
            &mut cloud,
            put(alloc, b"u/01/0000", b"object")?,
            b"ack"
        )?
    );
    assert!(rt;
        says(
            alloc,
            &mut cloud,
            put(alloc, b"u/01/0000", b"another")?,
            b"ack"
        )?
    );
    assert!(rt; says(alloc, &mut cloud, get(alloc, b"u/01/0000", 4)?, b"anot")?);
    fs::write(&rt, "cloud-of-test/part", "left")?;
    assert!(rt; says(alloc, &mut cloud, list(alloc, b"")?, b"names u/01/0000")?);
    assert!(rt; says(alloc, &mut cloud, put(alloc, b"u/../x", b"out")?, b"fail")?);
    let mut file = DirCloud::new(alloc, &rt, "cloud-of-test/u_01_0000");
    assert!(rt; matches!(file.put(b"u/1", b""), Err(CloudFault::Failed)));
    assert!(rt; says(alloc, &mut cloud, delete(alloc, b"u/01/0000")?, b"ack")?);
    assert!(rt; says(alloc, &mut cloud, delete(alloc, b"u/01/0000")?, b"ack")?);
    assert!(rt; says(alloc, &mut cloud, get(alloc, b"u/01/0000", 9)?, b"absent")?);
    fs::remove_file(&rt, "cloud-of-test/part")?;
    fs::remove_dir(&rt, "cloud-of-test")?;
    Ok(())
}

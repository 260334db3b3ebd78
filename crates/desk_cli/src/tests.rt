//! Tests of what only a call shows. What the program answers is in the cases that `make cases`
//! runs.

use messages::{Message, MessageFault, VerdictKind, read_message};
use std::alloc::Global;
use std::fmt::Write as _;
use std::test::Fail;
use sudo_words::{AliasName, ArgRule, Items, Moment, command_of, read_cmnd};

mod streams;

/// Texts of moments, with a space between.
const MOMENTS: &str =
    "19700101000000Z 1970010100Z 19700101000001Z 20000229000000Z 2015120108Z 20240229235959Z 20260105090000Z 202601050900Z 2026010509Z 202602281234Z 20381231235959Z 20991231235959Z 20260105100000+0100 2026010504-0500 19691231230000-0100 20991231235959+0000 20991231235959-0000 2100010100+0001";

/// The seconds of `MOMENTS`, as another program gives them.
const SECONDS: &str =
    "0 0 1 951782400 1448956800 1709251199 1767603600 1767603600 1767603600 1772282040 2177452799 4102444799 1767603600 1767603600 0 4102444799 4102444799 4102444740 ";

/// Texts that are not moments, with a bar between.
const NO_MOMENTS: &str =
    "| 2026010509Z|2026010509Z |2026-01-05T09:00:00Z|２０２６０１０５０９Z|19700101000000+0100|20991231235959-0001|20260105100000+2400|20260105100000+01|20260105100000+0160";

/// Texts that are not canonical, though most of them spell a moment.
const NO_STAMPS: &str =
    "|2026010509Z|202601050900Z|2026010504-0500|2026010510+0100|20260105100000+0100|20260230090000Z|20260105090000";

/// Texts that are not commands, with a bar between.
const NO_COMMANDS: &str =
    "| |/|//|/bin//|bin/ls|all|ALL x|ALL \"\"|ALL | ALL|/usr/bin/ x|/usr/bin/ \"\"|/bin/ls |/bin/ls  a|/bin/ls a  b|/bin/ls a \"\"|/bin/ls \"\" a|/bin/ls \"|/bin/echo a:b|/bin/echo a,b|/bin/echo \\a|/bin/echo a\\|/bin/../ls";

const REQUEST: &str =
    "{\"at\":\"20260105060000Z\",\"by\":\"ann\",\"ceiling\":\"db-root\",\"cmnds\":[\"/bin/ls\"],\"from\":\"20260105090000Z\",\"hosts\":[\"db1\"],\"kind\":\"request\",\"no\":7,\"runas\":\"root\",\"until\":\"20260105110000Z\"}";

const APPROVAL: &str =
    "{\"at\":\"20260105083000Z\",\"by\":\"bob\",\"kind\":\"approve\",\"no\":7,\"of\":\"ann\"}";

#[test]
fn seconds_of_moments(rt: HostRuntime) -> Result<(), Fail> {
    let mut seconds = String::new(rt.alloc());
    for text in MOMENTS.split(' ') {
        let moment = Moment::read(text).ok_or("a moment")?;
        write!(seconds, "{} ", moment.secs())?;
    }
    assert_eq!(rt; seconds.as_str(), SECONDS);
    Ok(())
}

#[test]
fn moments_from_seconds(rt: HostRuntime) -> Result<(), Fail> {
    let mut stamps = String::new(rt.alloc());
    for secs in [0, 86_399, 951_782_400, 4_102_444_799] {
        let moment = Moment::from_secs(secs).ok_or("a moment")?;
        write!(stamps, "{moment} ")?;
    }
    assert_eq!(rt;
        stamps.as_str(),
        "19700101000000Z 19700101235959Z 20000229000000Z 20991231235959Z "
    );
    for secs in [4_102_444_800, u64::MAX] {
        assert!(rt; Moment::from_secs(secs).is_none(), "{secs}");
    }
    Ok(())
}

#[test]
fn order_of_moments(rt: HostRuntime) -> Result<(), Fail> {
    let early = Moment::read("19991231235959Z").ok_or("a moment")?;
    let late = Moment::read("2000010100Z").ok_or("a moment")?;
    assert!(rt; early < late);
    assert!(rt; late > early);
    assert!(rt; early != late);
    assert!(rt; early.max(late) == late);
    Ok(())
}

#[test]
fn refused_moments(rt: HostRuntime) {
    for text in NO_MOMENTS.split('|') {
        assert!(rt; Moment::read(text).is_none(), "{text}");
    }
}

#[test]
fn canonical_moments(rt: HostRuntime) -> Result<(), Fail> {
    let moment = Moment::read_stamp("20260105090000Z").ok_or("a moment")?;
    assert_eq!(rt; moment.secs(), 1_767_603_600);
    for text in NO_STAMPS.split('|') {
        assert!(rt; Moment::read_stamp(text).is_none(), "{text}");
    }
    Ok(())
}

#[test]
fn refused_commands(rt: HostRuntime) {
    for text in NO_COMMANDS.split('|') {
        assert!(rt; read_cmnd(rt.alloc(), text).is_err(), "{text}");
    }
    let listed = ArgRule::Exactly(Items::new(Vec::new(rt.alloc())));
    assert!(rt; command_of(rt.alloc(), "/bin/ls", listed).is_err());
}

#[test]
fn order_of_words(rt: HostRuntime) -> Result<(), Fail> {
    let first = AliasName::read(rt.alloc(), "ADMIN").ok().ok_or("a name")?;
    let second = AliasName::read(rt.alloc(), "ADMINS").ok().ok_or("a name")?;
    assert!(rt; first < second);
    Ok(())
}

#[test]
fn members_of_request(rt: HostRuntime) -> Result<(), Fail> {
    let Ok(Message::Request(r)) = read_message(rt.alloc(), REQUEST.as_bytes()) else {
        return Err(Fail::from("no request"));
    };
    let (at, from, until) = (r.at().secs(), r.from().secs(), r.until().secs());
    let (by, ceiling, runas) = (r.by().as_str(), r.ceiling().as_str(), r.runas().as_str());
    let (cmnds, hosts, no) = (r.cmnds().len(), r.hosts().len(), r.no());
    let members = format!(in rt.alloc();
        "{at} {by} {ceiling} {cmnds} {from} {hosts} {no} {runas} {until}"
    )?;
    assert_eq!(rt;
        members.as_str(),
        "1767592800 ann db-root 1 1767603600 1 7 root 1767610800"
    );
    Ok(())
}

#[test]
fn members_of_verdict(rt: HostRuntime) -> Result<(), Fail> {
    let Ok(Message::Verdict(v)) = read_message(rt.alloc(), APPROVAL.as_bytes()) else {
        return Err(Fail::from("no verdict"));
    };
    let (at, by, no, of) = (v.at().secs(), v.by().as_str(), v.no(), v.of().as_str());
    let members = format!(in rt.alloc(); "{at} {by} {no} {of}")?;
    assert_eq!(rt; members.as_str(), "1767601800 bob 7 ann");
    assert_eq!(rt; v.kind(), VerdictKind::Approve);
    Ok(())
}

#[test]
fn newline_after_message(rt: HostRuntime) -> Result<(), Fail> {
    let body = format!(in rt.alloc(); "{REQUEST}\n")?;
    let fault = read_message(rt.alloc(), body.as_bytes()).err();
    assert_eq!(rt; fault, Some(MessageFault::NotCanonical));
    Ok(())
}

#[test]
fn shown_faults(rt: HostRuntime) -> Result<(), Fail> {
    let (a, b) = (MessageFault::TooLong, MessageFault::NotCanonical);
    let (c, d) = (MessageFault::BadField, MessageFault::NoMemory);
    let e = desk::Refusal::NoMemory;
    let text = format!(in rt.alloc(); "{a}, {b}, {c}, {d}, {e}")?;
    assert_eq!(rt;
        text.as_str(),
        "M1 TooLong, M2 NotCanonical, M3 BadField, M4 NoMemory, K5 NoMemory"
    );
    Ok(())
}

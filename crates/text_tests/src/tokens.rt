//! Tokens of each kind, and their faults.
use crate::sample::is_fault;
use dac_base::NoMemory;
use dac_tokens::{ConfigFault, FaultKind, Located, MAX_DEPTH, Symbol, Token, Tokens};
use std::alloc::{AllocError, AllocFailed, Global};

/// The first fault of a text's tokens.
fn fault_of(text: &[u8]) -> Option<ConfigFault> {
    let mut tokens = Tokens::new(text);
    for _ in 0..=text.len() {
        let located = match tokens.next() {
            Ok(located) => located,
            Err(fault) => return Some(fault),
        };
        if located.token == Token::End {
            return None;
        }
    }
    None
}

/// Text, and the first fault of its tokens with its place.
const FAULTS: &[(&[u8], FaultKind, usize)] = &[
    (b"[{kernel,[;", FaultKind::BadToken, 10),
    (b"[].a", FaultKind::BadToken, 2),
    (b"a%;%\n%\n;", FaultKind::BadToken, 7),
    (b"['a]", FaultKind::BadToken, 1),
    (b"\"a\\", FaultKind::BadToken, 0),
    (b"'ab\ncd", FaultKind::Unsupported, 3),
    (b" \"a\\^", FaultKind::Unsupported, 3),
    (b"[\"\"\"a\"]", FaultKind::Unsupported, 1),
    (b"[a|b]", FaultKind::Unsupported, 2),
    (b"a\x80", FaultKind::Unsupported, 1),
    (b" -5.0", FaultKind::Unsupported, 1),
    (b"16#ff", FaultKind::Unsupported, 0),
    (b"[fun]", FaultKind::Unsupported, 1),
];

#[test]
fn faults_of_tokens(rt: HostRuntime) {
    for (text, kind, at) in FAULTS {
        assert!(rt; is_fault(fault_of(text), *kind, *at), "at {at}");
    }
}

const ACCEPTED: &[&[u8]] = &[
    b"['fun',funs,'','a\"% \x80\xff'a].% end",
    b"[\"\",\"'%;\n\x80\"\"b\"]",
    b"\"\\\"\\\n\\\\^\"",
    b"[99999999999999999999,-05].\0",
];

#[test]
fn texts_without_a_fault(rt: HostRuntime) {
    for text in ACCEPTED {
        assert!(rt; fault_of(text).is_none());
    }
}

#[test]
fn brackets_may_be_64_deep(rt: HostRuntime) {
    assert!(rt; fault_of(&[b'['; MAX_DEPTH]).is_none());
    assert!(rt; is_fault(fault_of(&[b'{'; 65]), FaultKind::Unsupported, 64));
}

const TEXT: &[u8] = b" [{a1,-05 ]\"a\". ";

/// The tokens of the text with their places. After the end, the end is returned again.
const TOKENS: &[(Token<'static>, usize)] = &[
    (Token::Symbol(Symbol::OpenList), 1),
    (Token::Symbol(Symbol::OpenTuple), 2),
    (Token::Atom(b"a1"), 3),
    (Token::Symbol(Symbol::Comma), 5),
    (
        Token::Number {
            negative: true,
            digits: b"05",
        },
        6,
    ),
    (Token::Symbol(Symbol::CloseList), 10),
    (Token::Text, 11),
    (Token::Symbol(Symbol::FullStop), 14),
    (Token::End, 16),
    (Token::End, 16),
];

fn comes(tokens: &mut Tokens<'_>, token: Token<'_>, at: usize) -> bool {
    tokens.next() == Ok(Located { token, at })
}

#[test]
fn tokens_in_order(rt: HostRuntime) {
    let mut tokens = Tokens::new(TEXT);
    for (token, at) in TOKENS {
        assert!(rt; comes(&mut tokens, *token, *at), "at {at}");
    }
}

/// The kinds of faults in the order of their numbers, with their names.
const KINDS: &[(FaultKind, &str)] = &[
    (FaultKind::TooLong, "TooLong"),
    (FaultKind::BadToken, "BadToken"),
    (FaultKind::Unsupported, "Unsupported"),
    (FaultKind::BadShape, "BadShape"),
    (FaultKind::NoDistributed, "NoDistributed"),
    (FaultKind::TwiceApp, "TwiceApp"),
    (FaultKind::TwiceInList, "TwiceInList"),
    (FaultKind::EmptyList, "EmptyList"),
    (FaultKind::EmptyTuple, "EmptyTuple"),
    (FaultKind::TooManyNodes, "TooManyNodes"),
    (FaultKind::TooManyApps, "TooManyApps"),
    (FaultKind::NumberTooLarge, "NumberTooLarge"),
    (FaultKind::NameTooLong, "NameTooLong"),
    (FaultKind::NoMemory, "NoMemory"),
];

/// True if a kind has this number and name, and is printed by the name.
fn is_named(alloc: Global, kind: FaultKind, number: usize, name: &str) -> Option<bool> {
    let printed = format!(in alloc; "{kind}").ok()?;
    Some(usize::from(kind.number()) == number && kind.name() == name && printed.as_str() == name)
}

#[test]
fn kinds_by_number_and_name(rt: HostRuntime) {
    for (i, (kind, name)) in KINDS.iter().enumerate() {
        assert!(rt;
            is_named(rt.alloc(), *kind, i + 1, name) == Some(true),
            "{name}"
        );
    }
}

fn print_fault(alloc: Global, kind: FaultKind, at: usize) -> Option<String> {
    let fault = ConfigFault { kind, at };
    format!(in alloc; "{fault}").ok()
}

#[test]
fn a_fault_is_printed(rt: HostRuntime) {
    match print_fault(rt.alloc(), FaultKind::TwiceInList, 37) {
        Some(text) => assert!(rt; text.as_str() == "TwiceInList at 37"),
        None => assert!(rt; false),
    }
}

#[test]
fn want_of_memory(rt: HostRuntime) {
    let fault = ConfigFault::from(NoMemory);
    assert!(rt; fault.kind == FaultKind::NoMemory && fault.at == 0);
    assert!(rt; ConfigFault::from(AllocError) == fault);
    assert!(rt; ConfigFault::from(AllocFailed { value: 7u8 }) == fault);
}

//! Configuration files: which are accepted, and the first fault of the others.
use crate::sample::{EXAMPLE, is_fault};
use dac_first_fault::read_draft;
use dac_shapes::{MAX_APPS, MAX_NAME, MAX_NODES, MAX_TEXT, SyncWait};
use dac_tokens::{ConfigFault, FaultKind};
use std::alloc::{AllocError, Global};

fn fault_of(alloc: Global, text: &[u8]) -> Option<ConfigFault> {
    read_draft(alloc, text).err()
}

/// File, its numbers of applications, permissions and nodes, and its start-gate wait.
const FILES: &[(&[u8], (usize, usize, usize, SyncWait))] = &[
    (EXAMPLE, (1, 0, 3, SyncWait::Ms(5000))),
    (
        b"[{kernel,[{sync_nodes_timeout,infinity},{sync_nodes_optional,[c,b,c]},{sync_nodes_mandatory,[]},{distributed,[{x,[a,b]}]}]}].",
        (1, 0, 3, SyncWait::Forever),
    ),
    (
        b"[{kernel,[{permissions,[{x,false},{y,true},{x,true}]},{distributed,[{x,[a]}]}]}].",
        (1, 3, 1, SyncWait::NoSync),
    ),
    (
        b"[{sasl,[{f,\"x.log\"}]},{kernel,[{distributed,[{myapp,['n-1@h.example',{a@h}]}]}]}].",
        (1, 0, 2, SyncWait::NoSync),
    ),
    // Nested terms, adjacent strings, a large number; unused parameters and sections can repeat.
    (
        b"[{k,{-99999999999,[],{}}},{'kernel',[{f,\"a\" \"b\"},{f,[{b,[1,\"\"]},c]},{distributed,[{x,[n]}]}]},{k,x}].",
        (1, 0, 1, SyncWait::NoSync),
    ),
    (
        b"[{kernel,[{distributed,[{a,4294967295,[b@h]},{b,-0,[b@h]}]}]}].",
        (2, 0, 1, SyncWait::NoSync),
    ),
];

/// True if a file is accepted with these numbers and wait.
fn is_read(alloc: Global, text: &[u8], wanted: (usize, usize, usize, SyncWait)) -> bool {
    match read_draft(alloc, text) {
        Ok(draft) => {
            let permissions = draft.permissions.len();
            (
                draft.apps.len(),
                permissions,
                draft.nodes.len(),
                draft.sync_wait,
            ) == wanted
        }
        Err(_) => false,
    }
}

#[test]
fn files_that_are_read(rt: HostRuntime) {
    for (text, wanted) in FILES {
        assert!(rt; is_read(rt.alloc(), text, *wanted));
    }
}

/// File, and its first fault with its place.
const FAULTS: &[(&str, FaultKind, usize)] = &[
    (
        "[{kernel,[{distributed,[{a,[b@h,{c@h,b@h}]}]}]}].",
        FaultKind::TwiceInList,
        37,
    ),
    (
        "[{kernel,[{distributed,[{a,[b,{b}]},{a,[]}]}]}].",
        FaultKind::TwiceInList,
        31,
    ),
    (
        "[{kernel,[{distributed,[{a,[b@h,{}]}]}]}].",
        FaultKind::EmptyTuple,
        32,
    ),
    (
        "[{kernel,[{distributed,[{a,[]}]}]}].",
        FaultKind::EmptyList,
        27,
    ),
    (
        "[{kernel,[{distributed,[{a,5.0,[b@h]}]}]}].",
        FaultKind::Unsupported,
        27,
    ),
    ("[{kernel,[", FaultKind::BadShape, 10),
    ("[].", FaultKind::NoDistributed, 3),
    ("[{sasl,[]}].", FaultKind::NoDistributed, 12),
    ("[{'kernel',[]}].", FaultKind::NoDistributed, 16),
    (
        "[{kernel,[{distributed,[]}]}].",
        FaultKind::NoDistributed,
        30,
    ),
    (
        "[{kernel,[{permissions,[]}]}].",
        FaultKind::NoDistributed,
        30,
    ),
    (
        "[{kernel,[{distributed,[{a,[b@h]},{a,[b@h]}]}]}].",
        FaultKind::TwiceApp,
        35,
    ),
    (
        "[{kernel,[{distributed,[{a,4294967296,[b@h]}]}]}].",
        FaultKind::NumberTooLarge,
        27,
    ),
    (
        "[{kernel,[{distributed,[{a,-1,[b@h]}]}]}].",
        FaultKind::BadShape,
        27,
    ),
    (
        "[{kernel,[{distributed,[{x,[a]}]},{sync_nodes_timeout,-1}]}].",
        FaultKind::BadShape,
        54,
    ),
    (
        "[{kernel,[{distributed,[{x,[a]}]},{sync_nodes_timeout,4294967296}]}].",
        FaultKind::NumberTooLarge,
        54,
    ),
    (
        "[{kernel,[{distributed,[{x,[a]}]},{sync_nodes_timeout,forever}]}].",
        FaultKind::BadShape,
        54,
    ),
    (
        "[{kernel,[{distributed,[{a,[b]}]},{permissions,[{a,no}]}]}].",
        FaultKind::BadShape,
        51,
    ),
    (
        "[{kernel,[{distributed,[{a,[b]}]},{permissions,[{1,true}]}]}].",
        FaultKind::BadShape,
        49,
    ),
    ("[{kernel,[]},{kernel,[]}].", FaultKind::BadShape, 14),
    (
        "[{kernel,[]},{f,a},{'kernel',[]}].",
        FaultKind::BadShape,
        20,
    ),
    (
        "[{kernel,[{distributed,[]},{distributed,[]}]}].",
        FaultKind::BadShape,
        28,
    ),
    (
        "[{kernel,[{permissions,[]},{f,a},{permissions,[]}]}].",
        FaultKind::BadShape,
        34,
    ),
    (
        "[{kernel,[{distributed,[{a,[b]}]}]}]. a",
        FaultKind::BadShape,
        38,
    ),
    ("[{kernel,[{f,fun a:b/1}]}].", FaultKind::Unsupported, 13),
    ("[{kernel,[{f,~\"a\"}]}].", FaultKind::Unsupported, 13),
    ("[\"a\" \"b", FaultKind::Unsupported, 1),
    ("[\"a", FaultKind::BadToken, 1),
    ("[{f,[a,]}].", FaultKind::BadShape, 7),
    ("[{f,[a b]}].", FaultKind::BadShape, 7),
    ("[{f,{a]}].", FaultKind::BadShape, 6),
    ("[{f,}].", FaultKind::BadShape, 4),
    ("[{f,a,b}].", FaultKind::BadShape, 5),
    ("[{f,[a", FaultKind::BadShape, 6),
    ("[{f,\"a\" b}].", FaultKind::BadShape, 8),
    ("[{1,a}].", FaultKind::BadShape, 2),
    ("[{f,[", FaultKind::BadShape, 5),
    (
        "[{kernel,[{distributed,[{a,{b}}]}]}].",
        FaultKind::BadShape,
        27,
    ),
];

#[test]
fn faults_at_their_places(rt: HostRuntime) {
    for (text, kind, at) in FAULTS {
        assert!(rt;
            is_fault(fault_of(rt.alloc(), text.as_bytes()), *kind, *at),
            "{text}"
        );
    }
}

/// `count` names `aa`, `ab` and so on, each between `open` and `close`, separated by commas.
fn names(alloc: Global, count: u8, open: &[u8], close: &[u8]) -> Result<Vec<u8>, AllocError> {
    let mut names = Vec::new(alloc);
    for i in 0..count {
        if i > 0 {
            names.push(b',')?;
        }
        names.extend_from_slice(open)?;
        names.push(b'a' + i / 26 % 26)?;
        names.push(b'a' + i % 26)?;
        names.extend_from_slice(close)?;
    }
    Ok(names)
}

/// The fault of a text with these bytes in its parameter `distributed`.
fn fault_of_list(
    alloc: Global,
    open: &[u8],
    items: &[u8],
    close: &[u8],
) -> Result<Option<ConfigFault>, AllocError> {
    let mut text = Vec::from_slice(alloc, b"[{kernel,[{distributed,[")?;
    for bytes in [open, items, close, b"]}]}]."] {
        text.extend_from_slice(bytes)?;
    }
    Ok(fault_of(alloc, &text))
}

/// The fault of a text with `count` applications.
fn fault_of_apps(alloc: Global, count: u8) -> Result<Option<ConfigFault>, AllocError> {
    fault_of_list(alloc, b"", &names(alloc, count, b"{", b",[n]}")?, b"")
}

/// The fault of a text with `count` nodes in a list.
fn fault_of_nodes(alloc: Global, count: u8) -> Result<Option<ConfigFault>, AllocError> {
    fault_of_list(alloc, b"{a,[", &names(alloc, count, b"", b"")?, b"]}")
}

/// The fault of a text with a name of `length` bytes.
fn fault_of_name(alloc: Global, length: usize) -> Result<Option<ConfigFault>, AllocError> {
    fault_of_list(alloc, b"{", &vec![in alloc; b'a'; length]?, b",[b]}")
}

/// The fault of `count` spaces.
fn fault_of_spaces(alloc: Global, count: usize) -> Result<Option<ConfigFault>, AllocError> {
    Ok(fault_of(alloc, &vec![in alloc; b' '; count]?))
}

/// True if the fault has this kind and place.
fn is_told(fault: Result<Option<ConfigFault>, AllocError>, kind: FaultKind, at: usize) -> bool {
    match fault {
        Ok(fault) => is_fault(fault, kind, at),
        Err(_) => false,
    }
}

#[test]
fn most_that_may_be(rt: HostRuntime) {
    assert!(rt; matches!(fault_of_apps(rt.alloc(), MAX_APPS as u8), Ok(None)));
    assert!(rt; matches!(fault_of_nodes(rt.alloc(), MAX_NODES as u8), Ok(None)));
    assert!(rt; matches!(fault_of_name(rt.alloc(), MAX_NAME), Ok(None)));
}

#[test]
fn one_more_than_may_be(rt: HostRuntime) {
    // The 65th application follows 64 of 8 bytes and a comma each.
    let place = 24 + 64 * 9 + 1;
    assert!(rt; is_told(fault_of_apps(rt.alloc(), 65), FaultKind::TooManyApps, place));
    // The 65th node follows 64 of 2 bytes and a comma each.
    let place = 28 + 64 * 3;
    assert!(rt;
        is_told(
            fault_of_nodes(rt.alloc(), 65),
            FaultKind::TooManyNodes,
            place
        )
    );
    assert!(rt; is_told(fault_of_name(rt.alloc(), 256), FaultKind::NameTooLong, 25));
}

#[test]
fn longest_text(rt: HostRuntime) {
    let longest = fault_of_spaces(rt.alloc(), MAX_TEXT);
    assert!(rt; is_told(longest, FaultKind::BadShape, 65_536));
    let longer = fault_of_spaces(rt.alloc(), 65_537);
    assert!(rt; is_told(longer, FaultKind::TooLong, 65_536));
}

#[test]
fn laws_are_told() {
    dac_shapes::laws::limits_in_text_order();
}

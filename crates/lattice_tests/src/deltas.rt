//! Delta logs, and acknowledgements.
use crate::sample::origin;
use crate::tokens::Token;
use dac_base::NoMemory;
use dac_deltas::{Acks, Buffer, Entries};
use dac_lattice::{Bottom, Max};
use std::alloc::Global;

/// Appends a number, if the log isn't at its limit.
fn push(buffer: &mut Buffer<Max<u64>>, number: u64) -> Result<(), NoMemory> {
    if buffer.count() < 1 << 62 {
        buffer.push(Max::new(number))?;
    }
    Ok(())
}

/// A log of the numbers from 1 up to but without `end`.
fn numbers_below(alloc: Global, end: u64) -> Result<Buffer<Max<u64>>, NoMemory> {
    let mut buffer = Buffer::new(alloc);
    for number in 1..end {
        push(&mut buffer, number)?;
    }
    Ok(buffer)
}

/// A copy of the log of 1 to 257, trimmed to `to`.
fn trim_to(alloc: Global, to: u64) -> Result<Buffer<Max<u64>>, NoMemory> {
    let mut buffer = numbers_below(alloc, 258)?;
    buffer.trim(to);
    buffer.copy()
}

/// The join of all but the first `from` deltas, which is their maximum.
fn greatest(buffer: &Buffer<Max<u64>>, from: u64) -> Result<Option<u64>, NoMemory> {
    buffer.tells_invariant();
    if from > buffer.count() {
        return Ok(None);
    }
    match buffer.interval(from)? {
        Some(greatest) => Ok(Some(greatest.value)),
        None => Ok(None),
    }
}

/// True if the trimmed log begins at `base` and has this maximum after the first `from` deltas.
fn is_trimmed(
    alloc: Global,
    to: u64,
    base: u64,
    from: u64,
    wanted: Option<u64>,
) -> Result<bool, NoMemory> {
    let buffer = trim_to(alloc, to)?;
    Ok(buffer.base() == base && buffer.count() == 257 && greatest(&buffer, from)? == wanted)
}

/// Trim position, the log's first position then, start of an interval, and its maximum.
const TRIMS: &[(u64, u64, u64, Option<u64>)] = &[
    (0, 1, 0, None),
    (0, 1, 1, Some(257)),
    (0, 1, 257, Some(0)),
    (200, 200, 199, None),
    (200, 200, 200, Some(257)),
    (1000, 257, 257, Some(0)),
];

#[test]
fn oldest_are_dropped_and_trimmed(rt: HostRuntime) {
    for (to, base, from, wanted) in TRIMS {
        let answer = is_trimmed(rt.alloc(), *to, *base, *from, *wanted);
        assert!(rt; matches!(answer, Ok(true)), "trimmed to {to}, from {from}");
    }
}

/// Appends several numbers in one call, if the log isn't at its limit.
fn push_all(buffer: &mut Buffer<Max<u64>>, numbers: Vec<Max<u64>>) -> Result<(), NoMemory> {
    if buffer.count() < 1 << 61 && numbers.len() < 1 << 61 {
        buffer.push_all(numbers)?;
    }
    Ok(())
}

/// A log of 1 to 255, and then three numbers in one call.
fn with_three(alloc: Global) -> Result<Buffer<Max<u64>>, NoMemory> {
    let mut buffer = numbers_below(alloc, 256)?;
    let three = vec![in alloc; Max::new(7), Max::new(1000), Max::new(8)]?;
    push_all(&mut buffer, three)?;
    Ok(buffer)
}

/// True if the three are counted, the first two numbers are dropped, and the maximum after the first `from` is
/// `wanted`.
fn has_three(alloc: Global, from: u64, wanted: u64) -> Result<bool, NoMemory> {
    let buffer = with_three(alloc)?;
    Ok(buffer.base() == 2 && buffer.count() == 258 && greatest(&buffer, from)? == Some(wanted))
}

#[test]
fn several_are_pushed(rt: HostRuntime) {
    assert!(rt; has_three(rt.alloc(), 2, 1000) == Ok(true));
    assert!(rt; has_three(rt.alloc(), 257, 8) == Ok(true));
}

/// Makes the interval from number `from` on ready, if there is one.
fn warm<L: Bottom>(buffer: &mut Buffer<L>, from: u64) -> Result<(), NoMemory> {
    if from <= buffer.count() {
        buffer.warm_from(from)?;
    }
    Ok(())
}

/// The maximum of the numbers 1 to 9 after the first `asked`, while the interval after the first `from` is cached, and
/// then with 100 appended.
fn interval_beside(
    alloc: Global,
    from: u64,
    asked: u64,
) -> Result<(Option<u64>, Option<u64>), NoMemory> {
    let mut buffer = numbers_below(alloc, 10)?;
    warm(&mut buffer, from)?;
    let before = greatest(&buffer, asked)?;
    push(&mut buffer, 100)?;
    Ok((before, greatest(&buffer, asked)?))
}

#[test]
fn interval_is_cached_until_a_delta_comes(rt: HostRuntime) {
    assert!(rt; interval_beside(rt.alloc(), 3, 3) == Ok((Some(9), Some(100))));
    assert!(rt; interval_beside(rt.alloc(), 9, 3) == Ok((Some(9), Some(100))));
    assert!(rt; interval_beside(rt.alloc(), 3, 9) == Ok((Some(0), Some(100))));
}

/// Appends a token, if the log isn't at its limit.
fn push_token(buffer: &mut Buffer<Token>) -> Result<(), NoMemory> {
    if buffer.count() < 1 << 62 {
        buffer.push(Token::new())?;
    }
    Ok(())
}

/// The log with `count` more tokens.
fn with_tokens(mut buffer: Buffer<Token>, count: u64) -> Result<Buffer<Token>, NoMemory> {
    for _ in 0..count {
        push_token(&mut buffer)?;
    }
    Ok(buffer)
}

/// A log to which `count` tokens are appended in one call, without joins of blocks.
fn unjoined(alloc: Global, count: u64) -> Result<Buffer<Token>, NoMemory> {
    let mut buffer = Buffer::new(alloc);
    add_unjoined(alloc, &mut buffer, count)?;
    Ok(buffer)
}

/// Appends `count` tokens in one call, which makes no joins of blocks, if the log isn't at its limit.
fn add_unjoined(alloc: Global, buffer: &mut Buffer<Token>, count: u64) -> Result<(), NoMemory> {
    let mut tokens = Vec::new(alloc);
    for _ in 0..count {
        tokens.push(Token::new())?;
    }
    if buffer.count() < 1 << 61 && tokens.len() < 1 << 61 {
        buffer.push_all(tokens)?;
    }
    Ok(())
}

/// The number of joins that the interval after the first `from` deltas takes.
fn joins(buffer: &Buffer<Token>, from: u64) -> Result<Option<u64>, NoMemory> {
    buffer.tells_invariant();
    if from > buffer.count() {
        return Ok(None);
    }
    match buffer.interval(from)? {
        Some(token) => Ok(Some(token.joins)),
        None => Ok(None),
    }
}

/// The number of joins that the interval takes, and that after one more delta.
fn joins_and_next(
    mut buffer: Buffer<Token>,
    from: u64,
) -> Result<(Option<u64>, Option<u64>), NoMemory> {
    let before = joins(&buffer, from)?;
    push_token(&mut buffer)?;
    Ok((before, joins(&buffer, from)?))
}

/// Nine tokens in a log that caches its interval after the first 3, of blocks of 1, 4 and 1 deltas.
fn caching(alloc: Global) -> Result<Buffer<Token>, NoMemory> {
    let mut buffer = unjoined(alloc, 9)?;
    warm(&mut buffer, 3)?;
    Ok(buffer)
}

/// The number of joins of an interval while that after the first 3 is cached, and after one more delta.
fn beside_cached(alloc: Global, from: u64) -> Result<(Option<u64>, Option<u64>), NoMemory> {
    joins_and_next(caching(alloc)?, from)
}

#[test]
fn cached_interval_is_copied(rt: HostRuntime) {
    assert!(rt; beside_cached(rt.alloc(), 3) == Ok((Some(0), Some(2))));
    assert!(rt; beside_cached(rt.alloc(), 2) == Ok((Some(3), Some(3))));
}

/// Number of tokens, start of an interval, and its joins before and after one more delta. Only blocks are joined,
/// because pushes already joined their contents.
const PUSHED: &[(u64, u64, u64, u64)] = &[(9, 0, 1, 1), (300, 45, 7, 8)];

#[test]
fn pushes_make_the_joins_of_blocks(rt: HostRuntime) {
    for (count, from, before, after) in PUSHED {
        let answer = match with_tokens(Buffer::new(rt.alloc()), *count) {
            Ok(buffer) => joins_and_next(buffer, *from),
            Err(refused) => Err(refused),
        };
        assert!(rt;
            answer == Ok((Some(*before), Some(*after))),
            "{count}, {from}"
        );
    }
}

/// Number of tokens in one call, start of an interval, and its joins before and after one more push. Each delta is
/// joined, because nothing was joined before, but for the block of the last two that the push joins.
const UNJOINED: &[(u64, u64, u64, u64)] = &[(9, 0, 8, 8), (10, 0, 9, 10), (300, 45, 254, 255)];

#[test]
fn several_are_pushed_without_joins_of_blocks(rt: HostRuntime) {
    for (count, from, before, after) in UNJOINED {
        let answer = match unjoined(rt.alloc(), *count) {
            Ok(buffer) => joins_and_next(buffer, *from),
            Err(refused) => Err(refused),
        };
        assert!(rt;
            answer == Ok((Some(*before), Some(*after))),
            "{count}, {from}"
        );
    }
}

/// A log of tokens without joins that was warmed from number `warm_from` on, and again after one more delta if `again`:
/// the joins that the interval after the first `from` takes before that delta and after it.
fn warmed(
    alloc: Global,
    log: (u64, u64, u64),
    again: bool,
) -> Result<(Option<u64>, Option<u64>), NoMemory> {
    let (count, warm_from, from) = log;
    let mut buffer = unjoined(alloc, count)?;
    warm(&mut buffer, warm_from)?;
    let before = joins(&buffer, from)?;
    add_unjoined(alloc, &mut buffer, 1)?;
    if again {
        warm(&mut buffer, warm_from)?;
    }
    Ok((before, joins(&buffer, from)?))
}

/// Number of tokens, a number from which on the log is warmed, start of an interval, and its joins then, after one more
/// delta, and after a second warming. The interval that is warmed is cached. Only blocks that lie in it are joined.
const WARMED: &[(u64, u64, u64, u64, u64, u64)] = &[
    (9, 0, 0, 0, 2, 0),
    (9, 4, 4, 0, 2, 0),
    (9, 4, 3, 2, 3, 2),
    (9, 4, 0, 5, 6, 5),
    (9, 9, 0, 8, 9, 9),
    (300, 45, 45, 0, 8, 0),
    (300, 45, 46, 6, 7, 7),
    (300, 43, 45, 254, 255, 255),
    (7, 0, 0, 0, 3, 0),
];

#[test]
fn a_warm_buffer_has_the_joins_that_an_interval_needs(rt: HostRuntime) {
    for (count, warm_from, from, before, after, again) in WARMED {
        let log = (*count, *warm_from, *from);
        let once = warmed(rt.alloc(), log, false);
        assert!(rt;
            once == Ok((Some(*before), Some(*after))),
            "{count}, {warm_from}, {from}"
        );
        let twice = warmed(rt.alloc(), log, true);
        assert!(rt;
            twice == Ok((Some(*before), Some(*again))),
            "{count}, {warm_from}, {from}"
        );
    }
}

/// The maximum of all but the first `from` of eleven numbers in a log that is trimmed. The log is warmed after the
/// ninth, or only after the trim.
fn greatest_warmed(alloc: Global, to: u64, from: u64, late: bool) -> Result<Option<u64>, NoMemory> {
    let mut buffer = Buffer::new(alloc);
    let mut numbers = Vec::new(alloc);
    for number in [5u64, 9, 2, 7, 1, 8, 3, 6, 4] {
        numbers.push(Max::new(number))?;
    }
    push_all(&mut buffer, numbers)?;
    if !late {
        warm(&mut buffer, from)?;
    }
    push(&mut buffer, 2)?;
    push(&mut buffer, 5)?;
    buffer.trim(to);
    warm(&mut buffer, from)?;
    greatest(&buffer, from)
}

/// Trim position, start of an interval, and its maximum.
const GREATEST: &[(u64, u64, Option<u64>)] = &[
    (0, 0, Some(9)),
    (0, 2, Some(8)),
    (0, 8, Some(5)),
    (3, 2, None),
    (3, 3, Some(8)),
    (3, 6, Some(6)),
];

#[test]
fn joins_of_blocks_stay_as_deltas_come_and_go(rt: HostRuntime) {
    for (to, from, wanted) in GREATEST {
        for late in [false, true] {
            let answer = greatest_warmed(rt.alloc(), *to, *from, late);
            assert!(rt; answer == Ok(*wanted), "trimmed to {to}, from {from}");
        }
    }
}

/// The blocks that make up the interval after the first `from` deltas.
fn blocks(buffer: &Buffer<Max<u64>>, from: u64) -> Result<Option<Vec<(u64, u64)>>, NoMemory> {
    if from > buffer.count() {
        return Ok(None);
    }
    buffer.blocks(from)
}

/// True if the log of 1 to 300 has these blocks.
fn are_blocks(alloc: Global, from: u64, wanted: Option<&[(u64, u64)]>) -> Result<bool, NoMemory> {
    let buffer = numbers_below(alloc, 301)?;
    let found = blocks(&buffer, from)?;
    Ok(buffer.base() == 44 && found.as_deref() == wanted)
}

/// The blocks of the whole log.
const FROM_THE_OLDEST: &[(u64, u64)] = &[
    (44, 48),
    (48, 64),
    (64, 128),
    (128, 256),
    (256, 288),
    (288, 296),
    (296, 300),
];

/// A start of an interval, and its blocks.
const BLOCKS: &[(u64, Option<&[(u64, u64)]>)] = &[
    (43, None),
    (44, Some(FROM_THE_OLDEST)),
    (300, Some(&[])),
];

#[test]
fn blocks_are_aligned(rt: HostRuntime) {
    for (from, wanted) in BLOCKS {
        let answer = are_blocks(rt.alloc(), *from, *wanted);
        assert!(rt; matches!(answer, Ok(true)), "from {from}");
    }
}

/// A log of `count` numbers in no order.
fn mixed(alloc: Global, count: u64) -> Result<Buffer<Max<u64>>, NoMemory> {
    let mut buffer = Buffer::new(alloc);
    for number in 0..count {
        push(&mut buffer, number.wrapping_mul(37) % 101)?;
    }
    Ok(buffer)
}

/// The log after a push in two steps, or after a stage that was cancelled. `None` if the log is at its limit.
fn staged<L: Bottom>(buffer: Buffer<L>, delta: L, is_pushed: bool) -> Option<Buffer<L>> {
    if buffer.count() >= 1 << 62 {
        return None;
    }
    let staged = buffer.stage(delta).ok()?;
    if is_pushed {
        return Some(staged.commit());
    }
    Some(staged.cancel())
}

/// The number that is staged.
fn staged_number(buffer: Buffer<Max<u64>>, number: u64) -> Option<u64> {
    if buffer.count() >= 1 << 62 {
        return None;
    }
    let staged = buffer.stage(Max::new(number)).ok()?;
    Some(staged.delta().value)
}

/// True if both logs have as many deltas and the same intervals.
fn are_alike(one: &Buffer<Max<u64>>, other: &Buffer<Max<u64>>) -> Result<bool, NoMemory> {
    if one.count() != other.count() || one.base() != other.base() {
        return Ok(false);
    }
    for from in 0..=one.count() {
        if greatest(one, from)? != greatest(other, from)? {
            return Ok(false);
        }
    }
    Ok(true)
}

/// True if both logs are alike, and also after another number is pushed to each.
fn stay_alike(
    mut one: Buffer<Max<u64>>,
    mut other: Buffer<Max<u64>>,
    number: u64,
) -> Result<bool, NoMemory> {
    let are_same = are_alike(&one, &other)?;
    push(&mut one, number)?;
    push(&mut other, number)?;
    Ok(are_same && are_alike(&one, &other)?)
}

/// True if a number that is staged and committed is pushed.
fn is_committed(alloc: Global, count: u64) -> Option<bool> {
    let committed = staged(mixed(alloc, count).ok()?, Max::new(60), true)?;
    let mut pushed = mixed(alloc, count).ok()?;
    push(&mut pushed, 60).ok()?;
    stay_alike(committed, pushed, 50).ok()
}

/// True if a number that is staged and cancelled leaves nothing.
fn is_cancelled(alloc: Global, count: u64) -> Option<bool> {
    let cancelled = staged(mixed(alloc, count).ok()?, Max::new(200), false)?;
    stay_alike(cancelled, mixed(alloc, count).ok()?, 50).ok()
}

/// Numbers of deltas: none, few, one before a block ends, and around the limit.
const STAGED: &[u64] = &[0, 1, 9, 31, 32, 255, 256, 300];

#[test]
fn a_staged_delta_is_pushed_or_leaves_nothing(rt: HostRuntime) {
    for count in STAGED {
        assert!(rt; is_committed(rt.alloc(), *count) == Some(true), "{count}");
        assert!(rt; is_cancelled(rt.alloc(), *count) == Some(true), "{count}");
    }
    assert!(rt; staged_number(Buffer::new(rt.alloc()), 7) == Some(7));
}

/// The joins of an interval in a log of tokens to which one was staged, and those after one more delta.
fn staged_joins(
    buffer: Result<Buffer<Token>, NoMemory>,
    from: u64,
    is_pushed: bool,
) -> Option<(Option<u64>, Option<u64>)> {
    let staged = staged(buffer.ok()?, Token::new(), is_pushed)?;
    joins_and_next(staged, from).ok()
}

#[test]
fn a_committed_delta_makes_no_joins_of_blocks(rt: HostRuntime) {
    for (count, from, before, after) in UNJOINED {
        let buffer = unjoined(rt.alloc(), count.saturating_sub(1));
        let answer = staged_joins(buffer, *from, true);
        assert!(rt;
            answer == Some((Some(*before), Some(*after))),
            "{count}, {from}"
        );
    }
}

#[test]
fn a_cached_interval_ends_with_a_commit_only(rt: HostRuntime) {
    let cancelled = staged_joins(caching(rt.alloc()), 3, false);
    assert!(rt; cancelled == Some((Some(0), Some(2))));
    let committed = staged_joins(caching(rt.alloc()), 3, true);
    assert!(rt; committed == Some((Some(3), Some(4))));
}

/// The acknowledgement of an origin after two numbers.
fn acks_after(alloc: Global, first: u64, second: u64) -> Result<Option<u64>, NoMemory> {
    let mut acks = Acks::new(alloc);
    acks.raise(origin(0), first)?;
    acks.raise(origin(0), second)?;
    Ok(acks.copy()?.get(origin(0)))
}

/// Two acknowledgements and the greater one, also beyond four bytes.
const ACKS: &[(u64, u64, u64)] = &[
    (3, 2, 3),
    (3, 4_294_967_296, 4_294_967_296),
    (4_294_967_299, 4, 4_294_967_299),
    (1 << 62, 4_294_967_296, 1 << 62),
];

#[test]
fn greatest_acknowledged_stays(rt: HostRuntime) {
    for (first, second, kept) in ACKS {
        let answer = acks_after(rt.alloc(), *first, *second);
        assert!(rt; answer == Ok(Some(*kept)), "{first} and {second}");
    }
}

/// The values of three keys after one was put, then a lesser one, then the first again.
fn put_twice(alloc: Global) -> Result<[Option<u64>; 3], NoMemory> {
    let mut entries: Entries<u64, u64> = Entries::new(alloc);
    entries.put(2, 20)?;
    entries.put(1, 10)?;
    entries.put(2, 21)?;
    let copied = entries.copy()?;
    Ok([copied.get(1), copied.get(2), copied.get(3)])
}

#[test]
fn entries_are_put_in_order(rt: HostRuntime) {
    assert!(rt; put_twice(rt.alloc()) == Ok([Some(10), Some(21), None]));
}

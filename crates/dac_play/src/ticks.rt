//! The lines printed for a tick: its claims, and the applications that it passed.

ghost use Rattle.std.specs.Prelude.{◌≡◌, ◌++◌, ◌+◌, ◌≤◌, length, IfOk, OnOk};
ghost use Rattle.std.specs.List.{flat_map};
ghost use Rattle.dac_play.specs.Ticks.{app_text, claim_text, claims_text, passed_text, term_text, ticked_text};

use dac_base::{AppId, NoMemory, NodeId};
use dac_chains::How;
use dac_config::{Config, put_printed_name};
use dac_state::{Act, Op};
use dac_status::{how_text, put_from, put_number};
use std::alloc::Global;

/// Appends an application's name, or its number if it isn't configured.
fn put_app(alloc: Global, text: &mut Vec<u8>, config: &Config, app: AppId) -> Result<(), NoMemory>
    ensures { OnOk result (text.new.items ≡ text.old.items ++ app_text config.now app) }
{
    if app.0 < config.apps() {
        return put_printed_name(text, config.app_name(app));
    }
    let number = app.0;
    let digits = format!(in alloc; "{number}")?;
    text.extend_from_slice(digits.as_bytes())?;
    Ok(())
}

/// Appends a claim's term, its cause, and the previous node if it was taken from one.
fn put_term(
    alloc: Global,
    text: &mut Vec<u8>,
    config: &Config,
    term: u64,
    how: How,
    from: Option<NodeId>,
) -> Result<(), NoMemory>
    ensures { OnOk result (text.new.items ≡ text.old.items ++ term_text config.now term how from) }
{
    text.extend_from_slice(b" term ")?;
    put_number(text, term)?;
    text.extend_from_slice(how_text(how).as_bytes())?;
    put_from(alloc, text, config, from)
}

/// The line for a claim, with its operation's number. A tick issues only claims.
fn claim_line(
    alloc: Global,
    config: &Config,
    operation: usize,
    act: &Act,
) -> Result<Vec<u8>, NoMemory>
    ensures { IfOk result (λ line. line.items ≡ claim_text config.now operation act.now) }
{
    let Act::Claim {
        app,
        term,
        how,
        from,
    } = act
    else {
        return Ok(Vec::new(alloc));
    };
    let mut line = Vec::from_slice(alloc, b"claim ")?;
    put_number(&mut line, operation as u64)?;
    line.push(b' ')?;
    put_app(alloc, &mut line, config, *app)?;
    put_term(alloc, &mut line, config, *term, *how, *from)?;
    line.push(b'\n')?;
    Ok(line)
}

/// Appends one line per claim; `before` operations precede them.
fn put_claims(
    alloc: Global,
    lines: &mut Vec<u8>,
    config: &Config,
    before: usize,
    ops: &[Op],
) -> Result<(), NoMemory>
    requires { before + length ops.now ≤ usize.MAX }
    ensures { OnOk result
        (lines.new.items ≡ lines.old.items ++ claims_text config.now before ops.now) }
{
    let mut number = before;
    for operation in ops {
        number += 1;
        let line = claim_line(alloc, config, number, operation.act())?;
        lines.extend_from_slice(&line)?;
    }
    Ok(())
}

/// The line for an application passed because its terms are used up.
fn passed_line(alloc: Global, config: &Config, app: AppId) -> Result<Vec<u8>, NoMemory>
    ensures { IfOk result (λ line. line.items ≡ passed_text config.now app) }
{
    let mut line = Vec::from_slice(alloc, b"passed ")?;
    put_app(alloc, &mut line, config, app)?;
    line.push(b'\n')?;
    Ok(line)
}

/// Appends the lines for applications whose terms are used up.
fn put_passed(
    alloc: Global,
    lines: &mut Vec<u8>,
    config: &Config,
    passed: &[AppId],
) -> Result<(), NoMemory>
    ensures { OnOk result
        (lines.new.items ≡ lines.old.items ++ flat_map (passed_text config.now) passed.now) }
{
    for app in passed {
        let line = passed_line(alloc, config, *app)?;
        lines.extend_from_slice(&line)?;
    }
    Ok(())
}

/// The lines for a tick that issued these claims and passed these applications. `operations` is the world's count after
/// it.
pub fn ticked_lines(
    alloc: Global,
    config: &Config,
    operations: usize,
    ops: &[Op],
    passed: &[AppId],
) -> Result<Vec<u8>, NoMemory>
    ensures { IfOk result
        (λ lines. lines.items ≡ ticked_text config.now operations ops.now passed.now) }
{
    let mut lines = Vec::from_slice(alloc, b"ticked\n")?;
    let before = operations.saturating_sub(ops.len());
    put_claims(alloc, &mut lines, config, before, ops)?;
    put_passed(alloc, &mut lines, config, passed)?;
    Ok(lines)
}

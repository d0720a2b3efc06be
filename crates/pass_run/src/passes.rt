//! Passes, one behind another.

ghost use Rattle.std.specs.Prelude.{◌≡◌, ◌||◌, IfOk, nat_lt};
ghost use Rattle.std.specs.Thread.{IsSend};
ghost use Rattle.pass_run.specs.Passes.{Told, TellsPass, TellsPasses};

use crate::lines::{PassLine, say_pass, seconds_now};
use crate::live::listen_beside;
use crate::pass::run_pass;
use crate::roster::Roster;
use crate::wishes::Wishes;
use event_store::{Desk, Naming, Reader};
use mirror_settings::Settings;
use session_run::{Host, Progress};
use std::alloc::Global;
use std::io::Write;
use std::rt::Clock;
use std::sync::{Mutex, Wait};
use std::thread::sleep;
use std::time::{Duration, Instant};
use store_run::{Keeping, Refusal};

/// After how many milliseconds it is looked again for what is to be kept.
const TICK: u64 = 1_000;

/// How many milliseconds have gone by since then; 0 where the clock tells no time.
fn millis_since<C: Clock>(clock: &C, since: Option<Instant>) -> u64 {
    match (since, Instant::now(clock)) {
        (Some(since), Ok(now)) => {
            let gone = now.duration_since(since);
            gone.as_secs()
                .saturating_mul(1_000)
                .saturating_add(u64::from(gone.subsec_millis()))
        }
        _ => 0,
    }
}

/// Whether a pass left something, or a relay isn't level.
fn is_short(line: &PassLine) -> bool
    ensures { result ≡ (nat_lt 0 line.now.tally.left || nat_lt line.now.level line.now.relays) }
{
    line.tally.left > 0 || line.level < line.relays
}

/// One pass, which is told.
fn one_pass<
    J: Naming + Send + Sync,
    D: Wait + Drop + Send + Sync,
    R: Host,
    W: Write,
    P: Write + Send,
    E: Write + Send + Drop,
>(
    rt: &R,
    alloc: Global,
    settings: &Settings,
    pass: u64,
    now: u64,
    roster: &mut Roster,
    reader: &mut Reader<J>,
    desk: &Mutex<Desk<J, D>>,
    keeping: &Keeping<J, E>,
    writer: &mut W,
    progress: &Progress<P>,
) -> Result<PassLine, Refusal>
    ensures { IfOk result (λ line. (told : Told) × TellsPass settings.now pass (W.contents writer.old) (W.contents writer.new) told × (told.tally ≡ line.tally) × (told.level ≡ line.level) × (told.relays ≡ line.relays)) }
{
    let began = Instant::now(rt).ok();
    let tally = run_pass(
        rt, alloc, settings, now, roster, reader, desk, keeping, writer, progress,
    )?;
    let line = PassLine {
        pass,
        level: roster.level(),
        relays: roster.len(),
        tally,
        millis: millis_since(rt, began),
    };
    say_pass(rt, alloc, writer, &line)?;
    Ok(line)
}

/// Waits until the next pass begins: so many milliseconds behind the last one's begin, or at once where that one left ids of relays
/// that failed meanwhile, which others may have. What came is kept in the file meanwhile.
fn wait<J: Naming, R: Wait + Clock, E: Write + Drop>(
    rt: &R,
    settings: &Settings,
    roster: &Roster,
    line: &PassLine,
    keeping: &Keeping<J, E>,
) {
    let _ = keeping.tick(rt);
    if line.tally.left > 0 && roster.has_failed() {
        return;
    }
    let rest = settings.mirroring.every_ms.saturating_sub(line.millis);
    for _ in 0..rest / TICK {
        sleep(rt, Duration::from_millis(TICK));
        let _ = keeping.tick(rt);
    }
    sleep(rt, Duration::from_millis(rest % TICK));
}

/// Goes on in passes, up to as many as the settings say, and tells whether the last one left something or a relay isn't level. Behind
/// each but the last, the relays that are level are to be subscribed to.
fn run_passes<
    J: Naming + Send + Sync,
    D: Wait + Drop + Send + Sync,
    R: Host,
    W: Write,
    P: Write + Send,
    E: Write + Send + Drop,
>(
    rt: &R,
    alloc: Global,
    settings: &Settings,
    reader: &mut Reader<J>,
    desk: &Mutex<Desk<J, D>>,
    keeping: &Keeping<J, E>,
    wishes: &Wishes,
    writer: &mut W,
    progress: &Progress<P>,
) -> Result<bool, Refusal>
    ensures { IfOk result (TellsPasses settings.now (W.contents writer.old) (W.contents writer.new)) }
{
    let relays = settings.relays.as_slice().len();
    let mut roster = Roster::new(alloc, relays, settings.mirroring.every_ms)?;
    let started = Instant::now(rt).ok();
    let most = settings.mirroring.passes.unwrap_or(u64::MAX);
    let mut is_last_short = false;
    for number in 0..most {
        roster.begin(millis_since(rt, started));
        let now = seconds_now(rt);
        let pass = number.saturating_add(1);
        let line = one_pass(
            rt,
            alloc,
            settings,
            pass,
            now,
            &mut roster,
            reader,
            desk,
            keeping,
            writer,
            progress,
        )?;
        is_last_short = is_short(&line);
        if pass < most {
            wishes.wish(rt, roster.levels(), now);
            wait(rt, settings, &roster, &line, keeping);
        }
    }
    Ok(is_last_short)
}

/// How many relays may be subscribed to: all, or none where that isn't wanted or there is but one pass.
fn listeners(settings: &Settings) -> usize {
    if settings.mirroring.live && settings.mirroring.passes != Some(1) {
        settings.relays.as_slice().len()
    } else {
        0
    }
}

/// Goes on in passes, and subscribes to relays that are level meanwhile.
pub fn run_live<
    J: Naming + Send + Sync,
    D: Wait + Drop + Send + Sync,
    R: Host,
    W: Write,
    P: Write + Send,
    E: Write + Send + Drop,
>(
    rt: &R,
    alloc: Global,
    settings: &Settings,
    reader: &mut Reader<J>,
    desk: &Mutex<Desk<J, D>>,
    keeping: &Keeping<J, E>,
    writer: &mut W,
    progress: &Progress<P>,
) -> Result<bool, Refusal>
    ensures { IfOk result (TellsPasses settings.now (W.contents writer.old) (W.contents writer.new)) }
{
    let wishes = Wishes::new(alloc, listeners(settings))?;
    listen_beside(
        rt,
        alloc,
        settings,
        &wishes,
        desk,
        progress,
        &mut ||
            requires { IsSend J.row × IsSend D.row × IsSend P.row }
            ensures { IfOk result (TellsPasses settings.entry.now (W.contents writer.entry.now) (W.contents writer.exit.now)) }
        {
            let ran = run_passes(
                rt, alloc, settings, reader, desk, keeping, &wishes, writer, progress,
            );
            wishes.end(rt);
            ran
        },
    )
}

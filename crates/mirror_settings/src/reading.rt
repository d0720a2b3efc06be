//! The settings that a TOML text tells.

ghost use Rattle.std.specs.Prelude.{◌≡◌, ℕ, Bool, true, List, IfOk, IfErr};
ghost use Rattle.toml.specs.Data.{Members};
ghost use Rattle.toml.specs.Parse.{parse_document};
ghost use Rattle.toml.specs.View.{table_view};
ghost use Rattle.mirror_settings.specs.Settings.{Fails, HasEvents, HasListen, HasConns, HasRelays, HasFilter, HasWorkers, HasBases, HasRounds, HasPushMs, HasTimeoutMs, HasFsync, HasSlowBytes, HasMirroring, AreGoodBelow, Tells, TellsFor, Refuses, RefusesTable, RefusesTableFor, Stops};
ghost use Rattle.mirror_settings.specs.Settings.{reads_relays as relays_are_read};
ghost use Rattle.mirror_settings.specs.Parts.{TellsServing, TellsPlanning, TellsFetching, TellsPace, TellsAdmission, TellsRunning};
ghost use Rattle.mirror_settings.specs.Parts.{RefusesFrom, RefusesPlanning};

use crate::address::Address;
use crate::fault::{SettingsFault, SettingsKey};
use crate::job::Job;
use crate::lists::{Loads, Relays};
use crate::settings::{Mirroring, Settings, Syncing};
use crate::values::{
    address_in, filter_in, flag_at, loads_in, no_loads, relays_in, syncing_in, value_at, whole_at,
    whole_in, whole_or,
};
use nostr_event::Text;
use nostr_filter::Filter;
use std::alloc::Global;
use toml::Table;

/// What `slow_bytes` is where it is left out.
const SLOW_BYTES: u64 = 10_000;

/// What `every_ms` is where it is left out: five minutes.
const EVERY_MS: u64 = 300_000;

/// What is read of the events file and of whom the run serves.
#[derive(Drop)]
struct Serving {
    events: Text,
    listen: Option<Address>,
    conns: Option<u64>,
}

/// What is read of how fetches are planned.
#[derive(Drop)]
struct Planning {
    workers: u64,
    bases: Loads,
    rounds: u64,
}

/// What is read of the relays and of what is fetched from them.
#[derive(Drop)]
struct Fetching {
    relays: Relays,
    filter: Filter,
    planning: Planning,
}

/// What is read of how long the run waits for others and for the disk.
#[derive(Clone, Copy)]
struct Pace {
    push_ms: Option<u64>,
    timeout_ms: Option<u64>,
    fsync: Syncing,
    slow_bytes: u64,
}

/// What is read of the clients.
#[derive(Clone, Copy)]
struct Admission {
    clients: Option<u64>,
    ping_ms: Option<u64>,
    read_only: bool,
}

/// What is read of how the run goes on.
#[derive(Clone, Copy)]
struct Running {
    pace: Pace,
    admission: Admission,
    mirroring: Mirroring,
}

fn events_at(alloc: Global, table: &Table) -> Result<Text, SettingsFault>
    ensures ok { IfOk result (HasEvents (table_view table.now)) }
    ensures err { IfErr result (λ e. (sync mirror : Bool) → Stops sync mirror (table_view table.now) SettingsKey.Events e) }
{
    let Some(value) = value_at(table, SettingsKey::Events) else {
        return Err(SettingsFault::Key(SettingsKey::Events));
    };
    match value.as_str() {
        Some(path) => Ok(Text::new(String::from_str(alloc, path)?)),
        None => Err(SettingsFault::Key(SettingsKey::Events)),
    }
}

fn listen_at(alloc: Global, table: &Table, sync: bool) -> Result<Option<Address>, SettingsFault>
    ensures ok { IfOk result (HasListen sync (table_view table.now)) }
    ensures err { IfErr result (λ e. (mirror : Bool) → Stops sync mirror (table_view table.now) SettingsKey.Listen e) }
{
    match value_at(table, SettingsKey::Listen) {
        Some(value) => Ok(Some(address_in(alloc, value, SettingsKey::Listen)?)),
        None if sync => Ok(None),
        None => Err(SettingsFault::Key(SettingsKey::Listen)),
    }
}

fn conns_at(table: &Table, mirror: bool) -> Result<Option<u64>, SettingsFault>
    ensures ok { IfOk result (HasConns mirror (table_view table.now)) }
    ensures err { IfErr result (λ e. (sync : Bool) → Stops sync mirror (table_view table.now) SettingsKey.Conns e) }
{
    if mirror {
        return Ok(None);
    }
    let is_listening = value_at(table, SettingsKey::Listen).is_some();
    let conns = whole_at(table, SettingsKey::Conns, 1, 1_000_000)?;
    if conns.is_none() && is_listening {
        return Err(SettingsFault::Key(SettingsKey::Conns));
    }
    Ok(conns)
}

fn relays_at(alloc: Global, table: &Table, sync: bool) -> Result<Relays, SettingsFault>
    ensures ok { IfOk result (HasRelays sync (table_view table.now)) }
    ensures err { IfErr result (λ e. (mirror : Bool) → Stops sync mirror (table_view table.now) SettingsKey.Relays e) }
{
    if !sync {
        return Ok(Relays::new(Vec::new(alloc)));
    }
    let Some(value) = value_at(table, SettingsKey::Relays) else {
        return Err(SettingsFault::Key(SettingsKey::Relays));
    };
    let Some(values) = value.as_array() else {
        return Err(SettingsFault::Key(SettingsKey::Relays));
    };
    let count = values.len();
    if count == 0 || count > 256 {
        return Err(SettingsFault::Key(SettingsKey::Relays));
    }
    relays_in(alloc, values.as_slice())
}

fn filter_at(alloc: Global, table: &Table, sync: bool) -> Result<Filter, SettingsFault>
    ensures ok { IfOk result (HasFilter sync (table_view table.now)) }
    ensures err { IfErr result (λ e. (mirror : Bool) → Stops sync mirror (table_view table.now) SettingsKey.Filter e) }
{
    if !sync {
        return Ok(Filter::all());
    }
    match value_at(table, SettingsKey::Filter) {
        Some(value) => filter_in(alloc, value),
        None => Ok(Filter::all()),
    }
}

fn workers_at(table: &Table, sync: bool) -> Result<u64, SettingsFault>
    ensures ok { IfOk result (HasWorkers sync (table_view table.now)) }
    ensures err { IfErr result (λ e. (mirror : Bool) → Stops sync mirror (table_view table.now) SettingsKey.Workers e) }
{
    if !sync {
        return Ok(1);
    }
    match value_at(table, SettingsKey::Workers) {
        Some(value) => whole_in(value, 1, 4).ok_or(SettingsFault::Key(SettingsKey::Workers)),
        None => Ok(1),
    }
}

fn bases_at(alloc: Global, table: &Table, sync: bool, count: usize) -> Result<Loads, SettingsFault>
    ensures ok { IfOk result (HasBases sync (table_view table.now) count) }
    ensures err { IfErr result (Fails SettingsKey.Bases ((v : List ℕ) → ¬ HasBases sync (table_view table.now) count v)) }
{
    if !sync {
        return Ok(Loads::new(Vec::new(alloc)));
    }
    let Some(value) = value_at(table, SettingsKey::Bases) else {
        return no_loads(alloc, count);
    };
    let Some(values) = value.as_array() else {
        return Err(SettingsFault::Key(SettingsKey::Bases));
    };
    if values.len() != count {
        return Err(SettingsFault::Key(SettingsKey::Bases));
    }
    loads_in(alloc, values.as_slice())
}

fn rounds_at(table: &Table, sync: bool) -> Result<u64, SettingsFault>
    ensures ok { IfOk result (HasRounds sync (table_view table.now)) }
    ensures err { IfErr result (λ e. (mirror : Bool) → Stops sync mirror (table_view table.now) SettingsKey.Rounds e) }
{
    if !sync {
        return Ok(1);
    }
    match value_at(table, SettingsKey::Rounds) {
        Some(value) => whole_in(value, 1, 16).ok_or(SettingsFault::Key(SettingsKey::Rounds)),
        None => Ok(1),
    }
}

fn fsync_at(table: &Table) -> Result<Syncing, SettingsFault>
    ensures ok { IfOk result (HasFsync (table_view table.now)) }
    ensures err { IfErr result (λ e. (sync mirror : Bool) → Stops sync mirror (table_view table.now) SettingsKey.Fsync e) }
{
    match value_at(table, SettingsKey::Fsync) {
        Some(value) => syncing_in(value).ok_or(SettingsFault::Key(SettingsKey::Fsync)),
        None => Ok(Syncing::Always),
    }
}

fn slow_bytes_at(table: &Table, sync: bool) -> Result<u64, SettingsFault>
    ensures ok { IfOk result (HasSlowBytes sync (table_view table.now)) }
    ensures err { IfErr result (λ e. (mirror : Bool) → Stops sync mirror (table_view table.now) SettingsKey.SlowBytes e) }
{
    if !sync {
        return Ok(SLOW_BYTES);
    }
    match value_at(table, SettingsKey::SlowBytes) {
        Some(value) => {
            whole_in(value, 1, 1_000_000_000).ok_or(SettingsFault::Key(SettingsKey::SlowBytes))
        }
        None => Ok(SLOW_BYTES),
    }
}

/// What a table tells a mirror beside.
fn mirroring_at(table: &Table) -> Result<Mirroring, SettingsFault>
    ensures ok { IfOk result (HasMirroring true (table_view table.now)) }
    ensures err { IfErr result (λ e. (sync : Bool) → AreGoodBelow sync true (table_view table.now) 15 → RefusesTable sync true (table_view table.now) e) }
{
    let every_ms = whole_or(table, SettingsKey::EveryMs, 1, 86_400_000, EVERY_MS)?;
    let passes = whole_at(table, SettingsKey::Passes, 1, 1_000_000_000)?;
    let live = flag_at(table, SettingsKey::Live, true)?;
    Ok(Mirroring {
        every_ms,
        passes,
        live,
    })
}

/// What a table tells a run beside that is a mirror or isn't.
fn mirroring_of(table: &Table, mirror: bool) -> Result<Mirroring, SettingsFault>
    ensures ok { IfOk result (HasMirroring mirror (table_view table.now)) }
    ensures err { IfErr result (λ e. (sync : Bool) → AreGoodBelow sync mirror (table_view table.now) 15 → RefusesTable sync mirror (table_view table.now) e) }
{
    if mirror {
        return mirroring_at(table);
    }
    Ok(Mirroring {
        every_ms: EVERY_MS,
        passes: None,
        live: false,
    })
}

/// What a table tells of the events file and of whom the run serves.
fn serving_of(
    alloc: Global,
    table: &Table,
    sync: bool,
    mirror: bool,
) -> Result<Serving, SettingsFault>
    ensures ok { IfOk result (TellsServing sync mirror (table_view table.now)) }
    ensures err { IfErr result (RefusesTable sync mirror (table_view table.now)) }
{
    let events = events_at(alloc, table)?;
    let listen = listen_at(alloc, table, sync)?;
    let conns = conns_at(table, mirror)?;
    Ok(Serving {
        events,
        listen,
        conns,
    })
}

/// What a table tells of how fetches from this many relays are planned.
fn planning_of(
    alloc: Global,
    table: &Table,
    sync: bool,
    count: usize,
) -> Result<Planning, SettingsFault>
    ensures ok { IfOk result (TellsPlanning sync count (table_view table.now)) }
    ensures err { IfErr result (RefusesPlanning sync count (table_view table.now)) }
{
    let workers = workers_at(table, sync)?;
    let bases = bases_at(alloc, table, sync, count)?;
    let rounds = rounds_at(table, sync)?;
    Ok(Planning {
        workers,
        bases,
        rounds,
    })
}

/// What a table tells of the relays and of what is fetched from them.
fn fetching_of(alloc: Global, table: &Table, sync: bool) -> Result<Fetching, SettingsFault>
    ensures ok { IfOk result (TellsFetching sync (table_view table.now)) }
    ensures err { IfErr result (λ e. (mirror : Bool) → RefusesFrom 3 sync mirror (table_view table.now) e) }
{
    let relays = relays_at(alloc, table, sync)?;
    let filter = filter_at(alloc, table, sync)?;
    let count = relays.as_slice().len();
    let planning = planning_of(alloc, table, sync, count)?;
    Ok(Fetching {
        relays,
        filter,
        planning,
    })
}

/// What a table tells of how long the run waits for others and for the disk.
fn pace_of(table: &Table, sync: bool) -> Result<Pace, SettingsFault>
    ensures ok { IfOk result (TellsPace sync (table_view table.now)) }
    ensures err { IfErr result (λ e. (mirror : Bool) → RefusesFrom 8 sync mirror (table_view table.now) e) }
{
    let push_ms = whole_at(table, SettingsKey::PushMs, 1, 60_000)?;
    let timeout_ms = whole_at(table, SettingsKey::TimeoutMs, 1, 3_600_000)?;
    let fsync = fsync_at(table)?;
    let slow_bytes = slow_bytes_at(table, sync)?;
    Ok(Pace {
        push_ms,
        timeout_ms,
        fsync,
        slow_bytes,
    })
}

/// What a table tells of the clients.
fn admission_of(table: &Table, mirror: bool) -> Result<Admission, SettingsFault>
    ensures ok { IfOk result (TellsAdmission mirror (table_view table.now)) }
    ensures err { IfErr result (λ e. (sync : Bool) → RefusesFrom 12 sync mirror (table_view table.now) e) }
{
    let clients = whole_at(table, SettingsKey::Clients, 1, 100_000)?;
    let ping_ms = whole_at(table, SettingsKey::PingMs, 1, 3_600_000)?;
    let read_only = flag_at(table, SettingsKey::ReadOnly, mirror)?;
    Ok(Admission {
        clients,
        ping_ms,
        read_only,
    })
}

/// What a table tells of how the run goes on.
fn running_of(table: &Table, sync: bool, mirror: bool) -> Result<Running, SettingsFault>
    ensures ok { IfOk result (TellsRunning sync mirror (table_view table.now)) }
    ensures err { IfErr result (RefusesFrom 8 sync mirror (table_view table.now)) }
{
    let pace = pace_of(table, sync)?;
    let admission = admission_of(table, mirror)?;
    let mirroring = mirroring_of(table, mirror)?;
    Ok(Running {
        pace,
        admission,
        mirroring,
    })
}

/// The settings that a table tells of a run that reads relays or doesn't, and is a mirror or isn't.
fn settings_of(
    alloc: Global,
    table: &Table,
    sync: bool,
    mirror: bool,
) -> Result<Settings, SettingsFault>
    ensures ok { IfOk result (Tells sync mirror (table_view table.now)) }
    ensures err { IfErr result (RefusesTable sync mirror (table_view table.now)) }
{
    let serving = serving_of(alloc, table, sync, mirror)?;
    let fetching = fetching_of(alloc, table, sync)?;
    let running = running_of(table, sync, mirror)?;
    let Fetching {
        relays,
        filter,
        planning,
    } = fetching;
    Ok(Settings {
        events: serving.events,
        listen: serving.listen,
        conns: serving.conns,
        relays,
        filter,
        workers: planning.workers,
        bases: planning.bases,
        rounds: planning.rounds,
        push_ms: running.pace.push_ms,
        timeout_ms: running.pace.timeout_ms,
        fsync: running.pace.fsync,
        slow_bytes: running.pace.slow_bytes,
        clients: running.admission.clients,
        ping_ms: running.admission.ping_ms,
        read_only: running.admission.read_only,
        mirroring: running.mirroring,
    })
}

/// Whether the job reads relays.
fn reads_relays(table: &Table, job: Job) -> bool
    ensures { result ≡ relays_are_read job (table_view table.now) }
{
    match job {
        Job::Serve => false,
        Job::Sync => true,
        Job::Mirror => value_at(table, SettingsKey::Relays).is_some(),
    }
}

/// The settings that a table tells of a run of this job.
fn settings_for(alloc: Global, table: &Table, job: Job) -> Result<Settings, SettingsFault>
    ensures ok { IfOk result (TellsFor job (table_view table.now)) }
    ensures err { IfErr result (RefusesTableFor job (table_view table.now)) }
{
    settings_of(alloc, table, reads_relays(table, job), job.is_mirror())
}

/// The settings that a TOML text tells of a run of this job. Keys that aren't settings are passed over.
pub fn read_settings(alloc: Global, text: &str, job: Job) -> Result<Settings, SettingsFault>
    ensures ok { IfOk result (λ s. (t : Members) × (parse_document text.now ≡ Some t) × TellsFor job t s) }
    ensures err { IfErr result (Refuses job text.now) }
{
    match toml::table_from_str(alloc, text) {
        Ok(table) => settings_for(alloc, &table, job),
        Err(error) => Err(if error.is_memory() {
            SettingsFault::Memory
        } else {
            SettingsFault::Text
        }),
    }
}

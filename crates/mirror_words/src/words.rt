//! The job that the program's words name.

ghost use Rattle.std.specs.Prelude.{◌≡◌, ◌≤◌, false, map, codes, Some, IfOk, OnOk, IfErr, string_bytes};
ghost use Rattle.clap.specs.Words.{app_of, rule_of, shape_of, with_subcommand, subcommand_name_of, subcommand_of, subcommand_rows_of, found_of, first_of, one_of, rows_of};
ghost use Rattle.clap.specs.declared.builder.command.Command.TheViews.{out-Command as fields_of};
ghost use Rattle.clap.specs.Simple.{new_shape};
ghost use Rattle.mirror_words.specs.CommandLine.{nostr_mirror, reads_texts, program as the_program, recon as the_recon, serve as the_serve, sync as the_sync, mirror as the_mirror, limit_rule, settings_rule, progress_rule, strict_rule, IsPathOf, Tells, name_of, IsJob, IsWithin, IsLimitOf, limit_text, IsNamed, IsAccepted, IsDue};

use crate::usage::{WordsFault, fault_of};
use crate::version::version;
use clap::{Arg, ArgAction, ArgMatches, Command, value_parser};
use neg_session::{DEFAULT_LIMIT, LEAST_LIMIT, MOST_LIMIT};
use nostr_event::Text;
use std::alloc::{AllocError, Global};

/// What the program is to do.
#[derive(Drop)]
pub enum Words {
    /// Compare two lists of items, read from standard input, by messages of at most so many bytes, 4,096 to
    /// 1,048,576.
    Recon(usize),
    /// Share out the offers of a plan text, read from standard input.
    Plan,
    /// Tell the busiest load of a plan text, read from standard input, where no sharing has less.
    Check,
    /// Serve events to connections, by the settings of the file at this path.
    Serve(Text),
    /// Synchronise with relays, by the settings of the file at this path. Whether it is told how far it is, and whether the status
    /// tells that a relay failed or an id is left.
    Sync(Text, bool, bool),
    /// Keep a store level with relays, by the settings of the file at this path. Whether it is told how far it is.
    Mirror(Text, bool),
}

/// A subcommand that takes no words.
fn bare<'a>(alloc: Global, name: &'a str, about: &'a str) -> Command<'a>
    ensures shape { shape_of result ≡ new_shape name.entry.now }
    ensures local { (fields_of result).has_globals ≡ false }
{
    Command::new(alloc, name).about(about)
}

/// The option for the bytes that a message may have.
fn limit_option<'a>(alloc: Global) -> Arg<'a>
    ensures rule { rule_of result ≡ limit_rule }
    ensures local { result.global ≡ false }
{
    Arg::new(alloc, "limit")
        .long("limit")
        .value_name("N")
        .help("How many bytes a message may have, 4096 to 1048576 [default: 60000]")
        .value_parser(value_parser!(usize).range(4096..=1_048_576))
}

/// The path of the file of settings.
fn settings_argument<'a>(alloc: Global) -> Arg<'a>
    ensures rule { rule_of result ≡ settings_rule }
    ensures local { result.global ≡ false }
{
    Arg::new(alloc, "SETTINGS")
        .required(true)
        .help("The path of a TOML file with the settings")
}

/// The option that asks for progress.
fn progress_option<'a>(alloc: Global) -> Arg<'a>
    ensures rule { rule_of result ≡ progress_rule }
    ensures local { result.global ≡ false }
{
    Arg::new(alloc, "progress")
        .long("progress")
        .help("Tells on standard error how far it is")
        .action(ArgAction::SetTrue)
}

/// The option that asks for a status of its own where a relay failed or an id is left.
fn strict_option<'a>(alloc: Global) -> Arg<'a>
    ensures rule { rule_of result ≡ strict_rule }
    ensures local { result.global ≡ false }
{
    Arg::new(alloc, "strict")
        .long("strict")
        .help("Ends with status 3 where a relay failed or an id is left")
        .action(ArgAction::SetTrue)
}

/// The subcommand that serves events.
fn serve<'a>(alloc: Global) -> Result<Command<'a>, AllocError>
    ensures shape { IfOk result (λ c. shape_of c ≡ the_serve.top) }
    ensures local { IfOk result (λ c. (fields_of c).has_globals ≡ false) }
{
    bare(alloc, "serve", "Serves events to connections").arg(settings_argument(alloc))
}

/// The subcommand that synchronises with relays.
fn sync<'a>(alloc: Global) -> Result<Command<'a>, AllocError>
    ensures shape { IfOk result (λ c. shape_of c ≡ the_sync.top) }
    ensures local { IfOk result (λ c. (fields_of c).has_globals ≡ false) }
{
    bare(
        alloc,
        "sync",
        "Fetches the events that relays have and the events file lacks",
    )
    .arg(settings_argument(alloc))?
    .arg(progress_option(alloc))?
    .arg(strict_option(alloc))
}

/// The subcommand that keeps a store level with relays.
fn mirror<'a>(alloc: Global) -> Result<Command<'a>, AllocError>
    ensures shape { IfOk result (λ c. shape_of c ≡ the_mirror.top) }
    ensures local { IfOk result (λ c. (fields_of c).has_globals ≡ false) }
{
    bare(
        alloc,
        "mirror",
        "Keeps the events file level with relays, and serves its events",
    )
    .arg(settings_argument(alloc))?
    .arg(progress_option(alloc))
}

/// The subcommand that compares two lists.
pub fn recon<'a>(alloc: Global) -> Result<Command<'a>, AllocError>
    ensures shape { IfOk result (λ c. shape_of c ≡ the_recon.top) }
    ensures local { IfOk result (λ c. (fields_of c).has_globals ≡ false) }
{
    bare(
        alloc,
        "recon",
        "Compares two lists of items, read from standard input, and prints the messages",
    )
    .arg(limit_option(alloc))
}

/// The program without its subcommands.
fn program<'a>(alloc: Global) -> Result<Command<'a>, AllocError>
    ensures { IfOk result (λ c. app_of c ≡ the_program) }
{
    let program = Command::new(alloc, "nostr-mirror")
        .bin_name("nostr-mirror")?
        .about("A proved mirror relay for Nostr")
        .version(version())
        .subcommand_required(true);
    Ok(program)
}

/// A program with one more subcommand.
fn with<'a>(program: Command<'a>, subcommand: Command<'a>) -> Result<Command<'a>, AllocError>
    requires { (fields_of subcommand).has_globals ≡ false }
    ensures { IfOk result (λ c. app_of c ≡ with_subcommand (app_of program.entry) (shape_of subcommand.entry)) }
{
    program.subcommand(subcommand)
}

/// The program with the jobs of texts that it reads from standard input.
fn of_texts<'a>(alloc: Global) -> Result<Command<'a>, AllocError>
    ensures { IfOk result (λ c. app_of c ≡ reads_texts) }
{
    let plan =
        "Shares out the offers of a plan text, read from standard input, and prints the plan";
    let check =
        "Prints the busiest load of a plan, read from standard input, if it is shown to be least";
    let program = with(program(alloc)?, recon(alloc)?)?;
    let program = with(program, bare(alloc, "plan", plan))?;
    with(program, bare(alloc, "check", check))
}

/// The words that the program takes.
pub fn command<'a>(alloc: Global) -> Result<Command<'a>, AllocError>
    ensures { IfOk result (λ c. app_of c ≡ nostr_mirror) }
{
    let program = with(of_texts(alloc)?, serve(alloc)?)?;
    let program = with(program, sync(alloc)?)?;
    with(program, mirror(alloc)?)
}

/// The limit that the words of a subcommand name, or the default.
fn limit_named(matches: &ArgMatches) -> usize
    ensures within { (4096 ≤ result) × (result ≤ 1048576) }
    ensures named { IsLimitOf (one_of (codes "limit") (rows_of (found_of matches.now))) result }
{
    match matches.get_one::<usize>("limit") {
        Some(limit) if LEAST_LIMIT <= limit && limit <= MOST_LIMIT => limit,
        _ => DEFAULT_LIMIT,
    }
}

/// The limit of the job `recon`.
fn limit_of(matches: &ArgMatches) -> usize
    requires { subcommand_name_of matches.now ≡ Some (codes "recon") }
    ensures within { (4096 ≤ result) × (result ≤ 1048576) }
    ensures named { IsLimitOf (limit_text (subcommand_rows_of matches.now)) result }
{
    match matches.subcommand_matches("recon") {
        Some(recon) => limit_named(recon),
        None => unreachable!(),
    }
}

/// The path that the words of a subcommand name.
fn path_named(alloc: Global, matches: &ArgMatches) -> Result<Text, AllocError>
    ensures { IfOk result (IsPathOf (first_of (codes "SETTINGS") (rows_of (found_of matches.now)))) }
{
    match matches.get_str("SETTINGS") {
        Some(path) => Ok(Text::new(String::from_str(alloc, path)?)),
        None => Ok(Text::new(String::new(alloc))),
    }
}

/// The job `serve`.
fn serve_of(alloc: Global, matches: &ArgMatches) -> Result<Words, AllocError>
    requires { subcommand_name_of matches.now ≡ Some (codes "serve") }
    ensures name { IfOk result (λ job. subcommand_name_of matches.now ≡ Some (name_of job)) }
    ensures limit { IfOk result IsWithin }
    ensures exact { IfOk result (Tells (subcommand_rows_of matches.now)) }
{
    match matches.subcommand_matches("serve") {
        Some(serve) => Ok(Words::Serve(path_named(alloc, serve)?)),
        None => unreachable!(),
    }
}

/// The job `sync`.
fn sync_of(alloc: Global, matches: &ArgMatches) -> Result<Words, AllocError>
    requires { subcommand_name_of matches.now ≡ Some (codes "sync") }
    ensures name { IfOk result (λ job. subcommand_name_of matches.now ≡ Some (name_of job)) }
    ensures limit { IfOk result IsWithin }
    ensures exact { IfOk result (Tells (subcommand_rows_of matches.now)) }
{
    match matches.subcommand_matches("sync") {
        Some(sync) => {
            let path = path_named(alloc, sync)?;
            let progress = sync.get_flag("progress");
            let strict = sync.get_flag("strict");
            Ok(Words::Sync(path, progress, strict))
        }
        None => unreachable!(),
    }
}

/// The job `mirror`.
fn mirror_of(alloc: Global, matches: &ArgMatches) -> Result<Words, AllocError>
    requires { subcommand_name_of matches.now ≡ Some (codes "mirror") }
    ensures name { IfOk result (λ job. subcommand_name_of matches.now ≡ Some (name_of job)) }
    ensures limit { IfOk result IsWithin }
    ensures exact { IfOk result (Tells (subcommand_rows_of matches.now)) }
{
    match matches.subcommand_matches("mirror") {
        Some(mirror) => {
            let path = path_named(alloc, mirror)?;
            let progress = mirror.get_flag("progress");
            Ok(Words::Mirror(path, progress))
        }
        None => unreachable!(),
    }
}

/// The job of the subcommand that was met.
fn job_of(alloc: Global, matches: &ArgMatches) -> Result<Words, AllocError>
    requires { IsJob (subcommand_name_of matches.now) }
    ensures name { IfOk result (λ job. subcommand_name_of matches.now ≡ Some (name_of job)) }
    ensures limit { IfOk result IsWithin }
    ensures exact { IfOk result (Tells (subcommand_rows_of matches.now)) }
{
    if matches.subcommand_matches("plan").is_some() {
        Ok(Words::Plan)
    } else if matches.subcommand_matches("check").is_some() {
        Ok(Words::Check)
    } else if matches.subcommand_matches("serve").is_some() {
        serve_of(alloc, matches)
    } else if matches.subcommand_matches("sync").is_some() {
        sync_of(alloc, matches)
    } else if matches.subcommand_matches("mirror").is_some() {
        mirror_of(alloc, matches)
    } else {
        Ok(Words::Recon(limit_of(matches)))
    }
}

/// Reads the program's words, its name first.
pub fn read_words(alloc: Global, words: &[String]) -> Result<Words, WordsFault>
    ensures accepted { OnOk result (IsAccepted (map string_bytes words.now)) }
    ensures named { IfOk result (IsNamed (map string_bytes words.now)) }
    ensures limit { IfOk result IsWithin }
    ensures exact { IfOk result (Tells (subcommand_of nostr_mirror (map string_bytes words.now))) }
    ensures refused { IfErr result (IsDue (map string_bytes words.now)) }
{
    let command = command(alloc)?;
    let matches = match command.try_get_matches_from(words) {
        Ok(matches) => matches,
        Err(error) => return Err(fault_of(alloc, error)),
    };
    let job = job_of(alloc, &matches)?;
    Ok(job)
}

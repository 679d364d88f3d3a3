ghost use Rattle.std.specs.Prelude.{◌≡◌, ◌≤◌, ◌<◌, Some, IfOk, length, slice_get, slice_index, option_map};
ghost use Rattle.std.specs.Option.{ok_or};
ghost use Rattle.std.specs.List.{list_any, filter};
ghost use Rattle.command_words.specs.Parts.{parts_from, places, word_of, is_argument, misses_value, is_unknown};
ghost use Rattle.command_words.specs.Usages.{pure_usage, usage_of, limits_of};
ghost use Rattle.command_words.specs.Words.{Words, HasItsWords, command_of, has_bad_flag, has_wrong_count, is_repeated, meaning_of, argument_number, number_of, required_in, value_given, with_numbers};
ghost use Rattle.command_words.specs.declared.command.Command.TheVariants.{Check, Route, Run, Trace, Flood, Distance};
ghost use Rattle.command_words.specs.declared.command.WordsFault.TheVariants.{BadList, BadNumber};
ghost use Rattle.command_words.specs.declared.usage.NumberFlag.TheVariants.{Workers};
ghost use Rattle.command_words.specs.declared.usage.Kind.TheVariants.{Demo};

use crate::list::required_of;
use crate::number::number_within;
use crate::parts::{Parts, WordPart};
use crate::usage::{Flag, Kind, NumberFlag, Usage};
use crate::{Command, Required, WordsFault};
use meta_base::Text;

// How many nodes a generated network may have.
const LEAST_NODES: u64 = 2;

const GREATEST_NODES: u64 = 512;

/// The command that the words after the program's name mean, or the first fault in them. It takes no memory.
///
/// The first word is the command. Of the rest, from left to right, a word that begins with `--` is a flag and
/// takes the next word as its value, whatever that is; every other word is an argument. A number is 1 to 20
/// ASCII digits, which may begin with zeros. A list is one or more words, separated by commas, none twice.
/// Faults are looked for in the order that [`WordsFault`] gives.
#[tactic(auto, unfolding(crate::specs::Words::Words))]
pub fn read_words(words: &[Text]) -> Result<Command, WordsFault>
    ensures command { result ≡ Words words.now }
    ensures places { IfOk result (HasItsWords words.now) }
{
    let (command, rest) = words.split_first().ok_or(WordsFault::NoCommand)?;
    match Kind::named(command.as_str()) {
        Some(kind) => meaning_of(kind, rest),
        None => Err(WordsFault::UnknownCommand),
    }
}

// The command of this kind with these words after it, or the first fault in them.
fn meaning_of(kind: Kind, rest: &[Text]) -> Result<Command, WordsFault>
    ensures { result ≡ meaning_of (Some kind) (parts_from 1 rest.now) }
{
    let usage = kind.usage();
    if has_bad_flag(usage.flags, rest) {
        return Err(WordsFault::BadFlag);
    }
    if has_wrong_count(&usage, rest) {
        return Err(WordsFault::WrongCount);
    }
    command_of(kind, rest)
}

// Whether a flag is none of these, or one of these is given more than once.
fn has_bad_flag(flags: &[Flag], rest: &[Text]) -> bool
    ensures { result ≡ has_bad_flag flags.now (parts_from 1 rest.now) }
{
    has_unknown_flag(flags, rest) || has_repeated_flag(flags, rest)
}

fn has_unknown_flag(flags: &[Flag], rest: &[Text]) -> bool
    ensures { result ≡ list_any (is_unknown flags.now) (parts_from 1 rest.now) }
{
    Parts::after_command(rest).any(|part| part.is_unknown(flags))
}

fn has_repeated_flag(flags: &[Flag], rest: &[Text]) -> bool
    ensures { result ≡ list_any (is_repeated (parts_from 1 rest.now)) flags.now }
{
    flags.iter().any(|flag| is_repeated(*flag, rest))
}

fn is_repeated(flag: Flag, rest: &[Text]) -> bool
    ensures { result ≡ is_repeated (parts_from 1 rest.now) flag }
{
    Parts::after_command(rest)
        .filter(|part| part.gives(flag))
        .count()
        > 1
}

// Whether a flag has no value, or the arguments are too few or too many.
fn has_wrong_count(usage: &Usage, rest: &[Text]) -> bool
    ensures { result ≡ has_wrong_count (pure_usage usage.now) (parts_from 1 rest.now) }
{
    let count = argument_count(rest);
    misses_a_value(rest) || count < usage.least || usage.most < count
}

// Whether a flag has no value.
fn misses_a_value(rest: &[Text]) -> bool
    ensures { result ≡ list_any misses_value (parts_from 1 rest.now) }
{
    Parts::after_command(rest).any(WordPart::misses_value)
}

fn argument_count(rest: &[Text]) -> usize
    ensures { result ≡ length (places (parts_from 1 rest.now)) }
{
    Parts::after_command(rest)
        .filter_map(WordPart::place)
        .count()
}

// The place of the argument with this number, from 0, if there are so many.
fn argument(rest: &[Text], number: usize) -> Option<usize>
    ensures { result ≡ slice_get (places (parts_from 1 rest.now)) number }
{
    Parts::after_command(rest)
        .filter_map(WordPart::place)
        .nth(number)
}

// The place of the argument with this number, from 0, which is given.
fn given_argument(rest: &[Text], number: usize) -> usize
    requires { number < length (places (parts_from 1 rest.now)) }
    ensures { result ≡ slice_index (places (parts_from 1 rest.now)) number }
{
    argument(rest, number).unwrap()
}

// The command that these words make, or the fault of a number or a list among them.
fn command_of(kind: Kind, rest: &[Text]) -> Result<Command, WordsFault>
    requires { (usage_of kind).least ≤ length (places (parts_from 1 rest.now)) }
    ensures { result ≡ command_of kind (parts_from 1 rest.now) }
{
    let file = given_argument(rest, 0);
    let net = argument(rest, 1);
    match kind {
        Kind::Check => check_of(file, net, rest),
        Kind::Code => Ok(Command::Code { file, net }),
        Kind::Route => route_of(file, given_argument(rest, 1), rest),
        Kind::Settle => Ok(Command::Settle {
            file,
            net: given_argument(rest, 1),
        }),
        Kind::Stable => Ok(Command::Stable {
            file,
            net: given_argument(rest, 1),
        }),
        Kind::Run => run_of(file, given_argument(rest, 1), rest),
        Kind::Trace => trace_of(file, given_argument(rest, 1), rest),
        Kind::Flood => flood_of(file, given_argument(rest, 1), rest),
        Kind::Distance => distance_of(file, given_argument(rest, 1), rest),
        Kind::Verify => Ok(Command::Verify {
            file,
            net: given_argument(rest, 1),
            report: given_argument(rest, 2),
        }),
        Kind::Hops => Ok(Command::Hops {
            file,
            net: given_argument(rest, 1),
        }),
        Kind::Gadget => Ok(Command::Gadget { file }),
        Kind::Demo => demo_of(rest),
    }
}

fn check_of(file: usize, net: Option<usize>, rest: &[Text]) -> Result<Command, WordsFault>
    ensures { result ≡ ok_or (option_map (Check file net) (required_in (parts_from 1 rest.now))) BadList }
{
    let require = required_in(rest)?;
    Ok(Command::Check { file, net, require })
}

fn route_of(file: usize, net: usize, rest: &[Text]) -> Result<Command, WordsFault>
    ensures { result ≡ ok_or (option_map (Route file net) (number_of Workers (parts_from 1 rest.now))) BadNumber }
{
    let workers = number_of(NumberFlag::Workers, rest)? as u32;
    Ok(Command::Route { file, net, workers })
}

fn run_of(file: usize, net: usize, rest: &[Text]) -> Result<Command, WordsFault>
    ensures { result ≡ ok_or (with_numbers (Run file net) (parts_from 1 rest.now)) BadNumber }
{
    let (workers, turns) = numbers_of(rest)?;
    Ok(Command::Run {
        file,
        net,
        workers,
        turns,
    })
}

fn trace_of(file: usize, net: usize, rest: &[Text]) -> Result<Command, WordsFault>
    ensures { result ≡ ok_or (with_numbers (Trace file net) (parts_from 1 rest.now)) BadNumber }
{
    let (workers, turns) = numbers_of(rest)?;
    Ok(Command::Trace {
        file,
        net,
        workers,
        turns,
    })
}

fn flood_of(file: usize, net: usize, rest: &[Text]) -> Result<Command, WordsFault>
    ensures { result ≡ ok_or (with_numbers (Flood file net) (parts_from 1 rest.now)) BadNumber }
{
    let (workers, turns) = numbers_of(rest)?;
    Ok(Command::Flood {
        file,
        net,
        workers,
        turns,
    })
}

fn distance_of(file: usize, net: usize, rest: &[Text]) -> Result<Command, WordsFault>
    ensures { result ≡ ok_or (with_numbers (Distance file net) (parts_from 1 rest.now)) BadNumber }
{
    let (workers, turns) = numbers_of(rest)?;
    Ok(Command::Distance {
        file,
        net,
        workers,
        turns,
    })
}

// How many workers run the nodes, and with how many turns, or that one of these numbers is bad.
fn numbers_of(rest: &[Text]) -> Result<(u32, u64), WordsFault>
    ensures { result ≡ ok_or (with_numbers (λ workers turns. (workers, turns)) (parts_from 1 rest.now)) BadNumber }
{
    let workers = number_of(NumberFlag::Workers, rest)? as u32;
    let turns = number_of(NumberFlag::Turns, rest)?;
    Ok((workers, turns))
}

fn demo_of(rest: &[Text]) -> Result<Command, WordsFault>
    ensures { result ≡ command_of Demo (parts_from 1 rest.now) }
{
    let seed = argument_number(0, u64::MAX, 0, rest)?;
    let nodes = argument_number(LEAST_NODES, GREATEST_NODES, 1, rest)? as u32;
    Ok(Command::Demo { seed, nodes })
}

// The argument with this number, from 0, as a number of that range, or that it is bad.
fn argument_number(
    least: u64,
    greatest: u64,
    number: usize,
    rest: &[Text],
) -> Result<u64, WordsFault>
    ensures number { result ≡ ok_or (argument_number least greatest number (parts_from 1 rest.now)) BadNumber }
    ensures bounded { IfOk result (λ n. n ≤ greatest) }
{
    argument_word(number, rest)
        .and_then(|word| number_within(least, greatest, word))
        .ok_or(WordsFault::BadNumber)
}

// The word of the argument with this number, if there are so many.
fn argument_word(number: usize, rest: &[Text]) -> Option<&str>
    ensures { option_map (λ word. word.now) result ≡
        option_map word_of (slice_get (filter is_argument (parts_from 1 rest.now)) number) }
{
    let part = Parts::after_command(rest)
        .filter(|part| part.is_argument())
        .nth(number)?;
    Some(part.word())
}

// The number of the flag, or that it is bad.
fn number_of(flag: NumberFlag, rest: &[Text]) -> Result<u64, WordsFault>
    ensures number { result ≡ ok_or (number_of flag (parts_from 1 rest.now)) BadNumber }
    ensures bounded { IfOk result (λ n. n ≤ (limits_of flag).greatest) }
{
    let limits = flag.limits();
    let number = match value_given(Flag::Number(flag), rest) {
        Some(word) => number_within(limits.least, limits.greatest, word),
        None => Some(limits.default),
    };
    number.ok_or(WordsFault::BadNumber)
}

// What `--require` asks for, or that its list is bad.
fn required_in(rest: &[Text]) -> Result<Required, WordsFault>
    ensures { result ≡ ok_or (required_in (parts_from 1 rest.now)) BadList }
{
    match value_given(Flag::Require, rest) {
        Some(list) => required_of(list).ok_or(WordsFault::BadList),
        None => Ok(Required::default()),
    }
}

// The value of the flag, if it is given.
fn value_given(flag: Flag, rest: &[Text]) -> Option<&str>
    ensures { option_map (λ v. v.now) result ≡ value_given flag (parts_from 1 rest.now) }
{
    Parts::after_command(rest)
        .find(|part| part.gives(flag))?
        .value()
}

// The words of the command line, read from left to right.
ghost use Rattle.std.specs.Prelude.{◌≡◌, ◌<◌, ◌≤◌, ◌+◌, ◌-◌, ◌^◌, IfSome, IfOk, drop, length};
ghost use Rattle.spike_front.specs.Words as spec;
ghost use Rattle.spike_front.specs.Words.{command_of, AreSound, IsSound};

use fe_base::Words;
use fe_base::limits::{DEFAULT_STEP_LIMIT, GREATEST_STEP_LIMIT};

/// What the words ask for.
#[derive(Clone, Copy)]
pub enum Command {
    /// Run the program whose file the word at the index `file` names, for at most `limit` steps on the direct machine.
    /// Its arguments are that word and those behind it. Its paths stand under the directory that the word at the index
    /// `folder` names; where there is none, under the folder's root.
    Plain {
        limit: u64,
        folder: Option<usize>,
        file: usize,
    },
    /// Put the text of the kernel's items.
    Kernel,
    /// Put the words of the assembly text that the word at the index `file` names.
    Asm {
        file: usize,
    },
}

/// What the options of `plain` give.
#[derive(Clone, Copy)]
pub struct PlainOptions {
    /// The most steps.
    pub limit: Option<u64>,
    /// The index of DIR.
    pub folder: Option<usize>,
}

/// How words fail.
#[derive(Clone, Copy)]
pub enum UsageKind {
    /// There is no word.
    NoCommand,
    /// The first word is no command.
    UnknownCommand,
    /// The command has no such option.
    UnknownOption,
    /// The option was given before.
    OptionRepeated,
    /// The option's value is missing.
    ValueMissing,
    /// The word is no number of the option's range.
    BadNumber,
    /// The file is missing.
    FileMissing,
    /// There is a word too many.
    WordTooMany,
}

impl UsageKind {
    /// The number by which the failure is told.
    pub fn number(self) -> u8
        ensures { result ≡ spec.usage_number self }
    {
        match self {
            UsageKind::NoCommand => 1,
            UsageKind::UnknownCommand => 2,
            UsageKind::UnknownOption => 3,
            UsageKind::OptionRepeated => 4,
            UsageKind::ValueMissing => 5,
            UsageKind::BadNumber => 6,
            UsageKind::FileMissing => 9,
            UsageKind::WordTooMany => 10,
        }
    }
}

/// Why words are no command, by the first of them that fails.
#[derive(Clone, Copy)]
pub enum WordFault {
    /// The word at this index fails so; a missing word's index is the number of words.
    Usage(UsageKind, u64),
    /// The word names a command that is not built.
    NotBuilt,
}

fn is_unbuilt_name(name: &str) -> bool
    ensures { result ≡ spec.is_unbuilt_name name.now }
{
    name == "run" || name == "demo"
}

fn is_option(word: &str) -> bool
    ensures { result ≡ spec.is_option word.now }
{
    word.len() > 1 && word.as_bytes()[0] == b'-'
}

// The number that a word of 1 to 20 digits writes, where it is between these two.
fn number_within(word: &str, least: u64, most: u64) -> Option<u64>
    ensures value { result ≡ spec.number_within least most word.now }
    ensures within { IfSome result (λ number. (least ≤ number) × (number ≤ most)) }
{
    if word.is_empty() || word.len() > 20 || word.as_bytes()[0] == b'+' {
        return None;
    }
    match word.parse::<u64>() {
        Ok(number) if least <= number && number <= most => Some(number),
        _ => None,
    }
}

// The limit of steps that the word at the index gives.
fn limit_value(words: &Words, at: usize) -> Result<u64, WordFault>
    ensures value { result ≡ spec.limit_value at (drop at words.now) }
    ensures some { IfOk result (λ limit. 0 < limit) }
{
    if at >= words.len() {
        return Err(WordFault::Usage(UsageKind::ValueMissing, at as u64));
    }
    match number_within(words.word(at), 1, GREATEST_STEP_LIMIT) {
        Some(limit) => Ok(limit),
        None => Err(WordFault::Usage(UsageKind::BadNumber, at as u64)),
    }
}

// The index itself, where a word stands there.
fn any_value(words: &Words, at: usize) -> Result<usize, WordFault>
    ensures value { result ≡ spec.any_value at (drop at words.now) }
    ensures within { IfOk result (λ place. place < length words.now) }
{
    if at >= words.len() {
        return Err(WordFault::Usage(UsageKind::ValueMissing, at as u64));
    }
    Ok(at)
}

// The options of `plain` with the one that this word names, which stands at the index, behind those that came before.
fn read_option(
    words: &Words,
    at: usize,
    word: &str,
    before: PlainOptions,
) -> Result<PlainOptions, WordFault>
    requires room { at < 2 ^ 64 - 1 }
    requires sound { AreSound (length words.now) before }
    ensures value { result ≡ spec.read_option before at word.now (drop (at + 1) words.now) }
    ensures sound { IfOk result (AreSound (length words.now)) }
{
    if word == "--steps" {
        if before.limit.is_some() {
            return Err(WordFault::Usage(UsageKind::OptionRepeated, at as u64));
        }
        let limit = Some(limit_value(words, at + 1)?);
        return Ok(PlainOptions { limit, ..before });
    }
    if word == "--folder" {
        if before.folder.is_some() {
            return Err(WordFault::Usage(UsageKind::OptionRepeated, at as u64));
        }
        let folder = Some(any_value(words, at + 1)?);
        return Ok(PlainOptions { folder, ..before });
    }
    Err(WordFault::Usage(UsageKind::UnknownOption, at as u64))
}

// `plain` with the word at the index as FILE.
fn plain_file(words: &Words, at: usize, options: PlainOptions) -> Result<Command, WordFault>
    requires { AreSound (length words.now) options }
    ensures value { result ≡ spec.plain_file options at (drop at words.now) }
    ensures sound { IfOk result (IsSound (length words.now)) }
{
    if at >= words.len() {
        return Err(WordFault::Usage(UsageKind::FileMissing, at as u64));
    }
    Ok(Command::Plain {
        limit: options.limit.unwrap_or(DEFAULT_STEP_LIMIT),
        folder: options.folder,
        file: at,
    })
}

// `plain` with the words behind it: options with their values, and FILE.
fn plain_words(words: &Words) -> Result<Command, WordFault>
    requires { 0 < length words.now }
    ensures value { result ≡ spec.plain_words spec.no_options 1 (drop 1 words.now) }
    ensures sound { IfOk result (IsSound (length words.now)) }
{
    let mut options = PlainOptions {
        limit: None,
        folder: None,
    };
    let mut at = 1;
    'options: while at < words.len() && is_option(words.word(at)) {
        let word = words.word(at);
        if word == "--" {
            return plain_file(words, at + 1, options);
        }
        options = read_option(words, at, word, options)?;
        at += 2;
    }
    plain_file(words, at, options)
}

// Where the words behind the options begin, of a command that has none.
fn behind_options(words: &Words) -> Result<usize, WordFault>
    requires { 0 < length words.now }
    ensures value { result ≡ spec.behind_options (drop 1 words.now) }
    ensures within { IfOk result (λ place. place ≤ length words.now) }
{
    if words.len() < 2 {
        return Ok(1);
    }
    let word = words.word(1);
    if !is_option(word) {
        return Ok(1);
    }
    if word == "--" {
        return Ok(2);
    }
    Err(WordFault::Usage(UsageKind::UnknownOption, 1))
}

// `kernel` with the words behind it.
fn kernel_words(words: &Words) -> Result<Command, WordFault>
    requires { 0 < length words.now }
    ensures value { result ≡ spec.kernel_words (length words.now) (spec.behind_options (drop 1 words.now)) }
    ensures sound { IfOk result (IsSound (length words.now)) }
{
    let place = behind_options(words)?;
    if place < words.len() {
        return Err(WordFault::Usage(UsageKind::WordTooMany, place as u64));
    }
    Ok(Command::Kernel)
}

// `asm` with the words behind it.
fn asm_words(words: &Words) -> Result<Command, WordFault>
    requires { 0 < length words.now }
    ensures value { result ≡ spec.asm_words (length words.now) (spec.behind_options (drop 1 words.now)) }
    ensures sound { IfOk result (IsSound (length words.now)) }
{
    let place = behind_options(words)?;
    if place >= words.len() {
        return Err(WordFault::Usage(UsageKind::FileMissing, place as u64));
    }
    if place + 1 < words.len() {
        return Err(WordFault::Usage(UsageKind::WordTooMany, place as u64 + 1));
    }
    Ok(Command::Asm { file: place })
}

/// The command that the words are, or their first failure from the left.
pub fn read_command(words: &Words) -> Result<Command, WordFault>
    ensures value { result ≡ command_of words.now }
    ensures sound { IfOk result (IsSound (length words.now)) }
{
    if words.len() == 0 {
        return Err(WordFault::Usage(UsageKind::NoCommand, 0));
    }
    let name = words.word(0);
    if name == "plain" {
        return plain_words(words);
    }
    if name == "kernel" {
        return kernel_words(words);
    }
    if name == "asm" {
        return asm_words(words);
    }
    if is_unbuilt_name(name) {
        return Err(WordFault::NotBuilt);
    }
    Err(WordFault::Usage(UsageKind::UnknownCommand, 0))
}

/// What a command counts before its first step: a run its steps, the others nothing.
pub fn first_count(asked: Result<Command, WordFault>) -> Option<u64>
    ensures { result ≡ spec.first_count asked }
{
    match asked {
        Ok(Command::Plain { .. }) => Some(0),
        Ok(Command::Kernel | Command::Asm { .. }) | Err(_) => None,
    }
}

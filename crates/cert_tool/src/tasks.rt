//! Parses the arguments into a task: a command, its file and its options.

ghost use Rattle.std.specs.Prelude.{◌≡◌, ◌≤◌, ◌<◌, ◌^◌, ℕ, IfOk, IfErr, IfSome, IfNone, OnOk, map};
ghost use Rattle.std.specs.Prelude.{unwrap_or, is_some};
ghost use Rattle.cert_tool.specs.ParsedArguments.{arguments_plain, value_of};
ghost use Rattle.cert_tool.specs.Tasks.{kind_of, of_word, of_described, of_explained};
ghost use Rattle.cert_tool.specs.Tasks.{of_words, judges, asks, reads_stream, need_of, Keeps};
ghost use Rattle.cert_tool.specs.Tasks.{KeepsAll, IsTask, IsOptionError, AsksFor};
ghost use Rattle.cert_tool.specs.Tasks.{is_standard_input, shares_input, IsPlace, IsWrongValue};
ghost use Rattle.cert_tool.specs.Tasks.{command_in, plain_command, describes, tells};
ghost use Rattle.cert_tool.specs.Tasks.{is_bytes_in_json, IsMisuse, IsTimeText, IsPurpose};
ghost use Rattle.cert_tool.specs.Tasks.{IsLimit, time_text, purpose_text, limit_text};
ghost use Rattle.cert_tool.specs.Tasks.{IsDays, IsHostOf, remarks, verifies};
ghost use Rattle.cert_tool_explain.specs.DeskChecking.Arguments.{IsNumber};

use crate::kinds::Kind;
use crate::option_values::{Moment, parse_time, purpose_in};
use crate::parsed_arguments::{ArgumentError, Key, ParsedArguments, parse_arguments};
use cert_tool_explain::desk_checking::{limit_in, number_in};
use cert_tool_explain::oid::ObjectIdentifier;
use cert_tool_limits::Demands;
use cert_tool_limits::hosts::Host;

/// A command of the program.
#[derive(Clone, Copy)]
pub enum Command {
    /// `questions`: prints what a verifier must check.
    Questions,
    /// `verify`: validates a chain with a verifier's answers.
    Verify,
    /// `split`: lists certificates, or writes one.
    Split,
    /// `reverse`: writes certificates in the reverse order.
    Reverse,
    /// `describe KIND`: prints the contents of a file.
    Describe(Kind),
    /// `describe stream`: prints the contents of each certificate of a stream.
    DescribeStream,
    /// `explain KIND`: prints why a file can't be decoded.
    Explain(Kind),
    /// `explain anchors`: prints why trust anchors are rejected.
    ExplainAnchors,
    /// `explain stream`: prints why a stream is rejected.
    ExplainStream,
    /// `explain chain`: prints which rules a chain breaks.
    ExplainChain,
}

/// Whether a command takes an option.
#[derive(Clone, Copy)]
pub enum Need {
    /// The option is required.
    Needed,
    /// The option is optional.
    Allowed,
    /// The command doesn't take the option.
    Barred,
}

/// An error in the arguments.
#[derive(Clone, Copy)]
pub enum Misuse<'a> {
    /// An option or another argument is wrong.
    Words(ArgumentError<'a>),
    /// The arguments that are neither options nor values aren't a command and a file.
    NoCommand,
    /// The command requires this option.
    Missing(Key),
    /// The command doesn't take this option.
    Excess(Key),
    /// This value of the option is wrong.
    Wrong(Key, &'a str),
    /// `--json` is given for the bytes of one certificate.
    BytesInJson,
    /// Two files are standard input.
    SharedInput,
}

/// A command with its file and its options.
#[derive(Clone, Copy)]
pub struct Task<'a> {
    /// The command.
    pub command: Command,
    /// The file of the stream, or the file to describe or explain.
    pub file: &'a str,
    /// The file of the trust anchors; empty if the command takes none.
    pub anchors: &'a str,
    /// The file of the answers; empty if the command takes none.
    pub answers: &'a str,
    /// The validation time.
    pub moment: Moment,
    /// The key purpose of the end entity.
    pub purpose: ObjectIdentifier<39>,
    /// The maximum number of bytes of a certificate.
    pub limit: u32,
    /// The index of the certificate to write.
    pub place: Option<u64>,
    /// Whether the program prints JSON (RFC 8259).
    pub json: bool,
    /// Whether descriptions include digests.
    pub digests: bool,
    /// Whether the first certificate of the chain's PEM file is the end entity's, as TLS sends it.
    pub leaf_first: bool,
    /// Whether the exit status is 1 if there is a remark.
    pub fails_on_remark: bool,
    /// What a trusted chain must meet beyond the rules of path validation.
    pub demands: Demands<'a>,
}

// Returns the kind with this name.
fn kind_of(word: &str) -> Option<Kind>
    ensures { result ≡ kind_of word.now }
{
    match word {
        "certificate" => Some(Kind::Certificate),
        "list" => Some(Kind::List),
        "request" => Some(Kind::Request),
        "ocsp-request" => Some(Kind::OcspRequest),
        "ocsp-response" => Some(Kind::OcspResponse),
        "message" => Some(Kind::Message),
        "key" => Some(Kind::Key),
        "timestamp" => Some(Kind::Timestamp),
        _ => None,
    }
}

// Returns the command with this name, if it is one word.
pub(crate) fn of_word(word: &str) -> Option<Command>
    ensures { result ≡ of_word word.now }
{
    match word {
        "questions" => Some(Command::Questions),
        "verify" => Some(Command::Verify),
        "split" => Some(Command::Split),
        "reverse" => Some(Command::Reverse),
        _ => None,
    }
}

// Returns the `describe` command for a kind.
fn of_described(kind: &str) -> Option<Command>
    ensures { result ≡ of_described kind.now }
{
    match kind {
        "stream" => Some(Command::DescribeStream),
        _ => match kind_of(kind) {
            Some(kind) => Some(Command::Describe(kind)),
            None => None,
        },
    }
}

// Returns the `explain` command for a kind.
fn of_explained(kind: &str) -> Option<Command>
    ensures { result ≡ of_explained kind.now }
{
    match kind {
        "chain" => Some(Command::ExplainChain),
        "stream" => Some(Command::ExplainStream),
        "anchors" => Some(Command::ExplainAnchors),
        _ => match kind_of(kind) {
            Some(kind) => Some(Command::Explain(kind)),
            None => None,
        },
    }
}

// Returns the command of two words.
pub(crate) fn of_words(word: &str, kind: &str) -> Option<Command>
    ensures { result ≡ of_words word.now kind.now }
{
    match word {
        "describe" => of_described(kind),
        "explain" => of_explained(kind),
        _ => None,
    }
}

// Returns the command and the file that the arguments name.
fn command_in<'a>(given: &ParsedArguments<'a>) -> Option<(Command, &'a str)>
    ensures { plain_command result ≡ command_in (arguments_plain given.now) }
{
    let Some(word) = given.first else {
        return None;
    };
    let Some(second) = given.second else {
        return None;
    };
    let Some(file) = given.third else {
        let Some(command) = of_word(word) else {
            return None;
        };
        return Some((command, second));
    };
    let Some(command) = of_words(word, second) else {
        return None;
    };
    Some((command, file))
}

impl Command {
    // Returns whether the command validates a chain.
    fn judges(self) -> bool
        ensures { result ≡ judges self }
    {
        matches!(self, Command::Verify | Command::ExplainChain)
    }

    // Returns whether the command prints the verdict on a chain.
    fn verifies(self) -> bool
        ensures { result ≡ verifies self }
    {
        matches!(self, Command::Verify)
    }

    // Returns whether the command requires trust anchors.
    fn asks(self) -> bool
        ensures { result ≡ asks self }
    {
        matches!(self, Command::Questions) || self.judges()
    }

    // Returns whether the command reads a stream of certificates.
    fn reads_stream(self) -> bool
        ensures { result ≡ reads_stream self }
    {
        matches!(
            self,
            Command::Split | Command::Reverse | Command::DescribeStream | Command::ExplainStream
        ) || self.asks()
    }

    // Returns whether the command prints a description.
    fn describes(self) -> bool
        ensures { result ≡ describes self }
    {
        matches!(self, Command::Describe(_) | Command::DescribeStream)
    }

    // Returns whether the command prints remarks.
    fn remarks(self) -> bool
        ensures { result ≡ remarks self }
    {
        matches!(self, Command::Explain(_) | Command::ExplainChain)
    }

    // Returns whether the command prints text that can be JSON.
    fn tells(self) -> bool
        ensures { result ≡ tells self }
    {
        !matches!(self, Command::Questions | Command::Reverse)
    }

    // Returns whether the command takes this option.
    #[inline(always)]
    fn need_of(self, key: Key) -> Need
        ensures { result ≡ need_of self key }
    {
        let (has, need) = match key {
            Key::Anchors => (self.asks(), Need::Needed),
            Key::Answers => (self.judges(), Need::Needed),
            Key::At => (self.judges(), Need::Allowed),
            Key::Purpose => (self.judges(), Need::Allowed),
            Key::Limit => (self.reads_stream(), Need::Allowed),
            Key::Place => (matches!(self, Command::Split), Need::Allowed),
            Key::Json => (self.tells(), Need::Allowed),
            Key::Digests => (self.describes(), Need::Allowed),
            Key::LeafFirst => (self.asks(), Need::Allowed),
            Key::Strict => (self.judges(), Need::Allowed),
            Key::Host => (self.judges(), Need::Allowed),
            Key::WarnDays => (self.verifies(), Need::Allowed),
            Key::FailOnRemark => (self.remarks(), Need::Allowed),
        };
        if has { need } else { Need::Barred }
    }

    // Checks one option: it is given if it is required, and not given if the command doesn't take
    // it. The function is inlined, because each call has a constant key.
    #[inline(always)]
    fn keeps<'a>(self, file: &str, given: &ParsedArguments<'a>, key: Key) -> Result<(), Misuse<'a>>
        ensures kept { OnOk result (Keeps self (arguments_plain given.now) key) }
        ensures amiss { IfErr result (λ misuse.
            IsOptionError self file.now (arguments_plain given.now) misuse) }
    {
        let is_given = is_given(given, key);
        match self.need_of(key) {
            Need::Needed => {
                if !is_given {
                    return Err(Misuse::Missing(key));
                }
            }
            Need::Allowed => {}
            Need::Barred => {
                if is_given {
                    return Err(Misuse::Excess(key));
                }
            }
        }
        Ok(())
    }

    // Checks all options.
    fn keeps_all<'a>(self, file: &str, given: &ParsedArguments<'a>) -> Result<(), Misuse<'a>>
        ensures kept { OnOk result (KeepsAll self (arguments_plain given.now)) }
        ensures amiss { IfErr result (λ misuse.
            IsOptionError self file.now (arguments_plain given.now) misuse) }
    {
        self.keeps(file, given, Key::Anchors)?;
        self.keeps(file, given, Key::Answers)?;
        self.keeps(file, given, Key::At)?;
        self.keeps(file, given, Key::Purpose)?;
        self.keeps(file, given, Key::Limit)?;
        self.keeps(file, given, Key::Place)?;
        self.keeps(file, given, Key::Json)?;
        self.keeps(file, given, Key::Digests)?;
        self.keeps(file, given, Key::LeafFirst)?;
        self.keeps(file, given, Key::Strict)?;
        self.keeps(file, given, Key::Host)?;
        self.keeps(file, given, Key::WarnDays)?;
        self.keeps(file, given, Key::FailOnRemark)?;
        Ok(())
    }
}

// Returns whether a file name means standard input.
fn is_standard_input(name: &str) -> bool
    ensures { result ≡ is_standard_input name.now }
{
    name == "-"
}

// Returns whether two of three files are standard input.
fn shares_input(anchors: &str, answers: &str, file: &str) -> bool
    ensures { result ≡ shares_input anchors.now answers.now file.now }
{
    let (anchors, answers, file) = (
        is_standard_input(anchors),
        is_standard_input(answers),
        is_standard_input(file),
    );
    (anchors && answers) || (anchors && file) || (answers && file)
}

// Returns the value of an option, or its default.
fn text_of<'a>(given: &ParsedArguments<'a>, key: Key, default: &'a str) -> &'a str
    ensures { result.now ≡ unwrap_or (value_of key (arguments_plain given.now)) default.now }
{
    given.value_of(key).unwrap_or(default)
}

// Returns the validation time. The error is the text that can't be parsed.
fn time_of<'a>(given: &ParsedArguments<'a>) -> Result<Moment, &'a str>
    ensures read { IfOk result (λ moment.
        IsTimeText moment (time_text (arguments_plain given.now))) }
    ensures amiss { IfErr result (λ text.
        IsWrongValue Key.At text.now (arguments_plain given.now)) }
{
    let text = text_of(given, Key::At, "now");
    parse_time(text).ok_or(text)
}

// Returns the key purpose. The error is the text that can't be parsed.
fn purpose_of<'a>(given: &ParsedArguments<'a>) -> Result<ObjectIdentifier<39>, &'a str>
    ensures read { IfOk result (λ purpose.
        IsPurpose purpose (purpose_text (arguments_plain given.now))) }
    ensures amiss { IfErr result (λ text.
        IsWrongValue Key.Purpose text.now (arguments_plain given.now)) }
{
    let text = text_of(given, Key::Purpose, "serverAuth");
    purpose_in(text).map_err(|_| text)
}

// Returns the maximum number of bytes of a certificate. The error is the text that can't be parsed.
fn limit_of<'a>(given: &ParsedArguments<'a>) -> Result<u32, &'a str>
    ensures read { IfOk result (λ limit. IsLimit limit (limit_text (arguments_plain given.now))) }
    ensures amiss { IfErr result (λ text.
        IsWrongValue Key.Limit text.now (arguments_plain given.now)) }
{
    let text = text_of(given, Key::Limit, "65536");
    limit_in(text).ok_or(text)
}

// Returns the index of one certificate, if it is given. The error is the text that can't be parsed.
fn place_in<'a>(given: &ParsedArguments<'a>) -> Result<Option<u64>, &'a str>
    ensures read { IfOk result (λ place. IsPlace place (arguments_plain given.now).place) }
    ensures amiss { IfErr result (λ text.
        IsWrongValue Key.Place text.now (arguments_plain given.now)) }
{
    let Some(text) = given.place else {
        return Ok(None);
    };
    let Some(place) = number_in(text) else {
        return Err(text);
    };
    Ok(Some(place))
}

// Returns the host, if it is given. The error is the text that can't be parsed.
fn host_in<'a>(given: &ParsedArguments<'a>) -> Result<Option<Host<'a>>, &'a str>
    ensures read { IfOk result (λ host. IsHostOf host (arguments_plain given.now).host) }
    ensures amiss { IfErr result (λ text.
        IsWrongValue Key.Host text.now (arguments_plain given.now)) }
{
    let Some(text) = given.host else {
        return Ok(None);
    };
    let Some(host) = Host::parse(text) else {
        return Err(text);
    };
    Ok(Some(host))
}

// Parses a number of days.
#[tactic(auto, unfolding(crate::specs::Opened::IsNumber))]
fn days_of(text: &str) -> Option<u32>
    ensures read { IfSome result (λ n. IsNumber n text.now) }
    ensures none { IfNone result ((n : ℕ) → IsNumber n text.now → n < 2 ^ 32 → ⊥) }
{
    let Some(days) = number_in(text) else {
        return None;
    };
    if days > u64::from(u32::MAX) {
        return None;
    }
    Some(days as u32)
}

// Returns the number of days of `--warn-days`, if it is given. The error is the text that can't be
// parsed.
fn days_in<'a>(given: &ParsedArguments<'a>) -> Result<Option<u32>, &'a str>
    ensures read { IfOk result (λ days. IsDays days (arguments_plain given.now).warn_days) }
    ensures amiss { IfErr result (λ text.
        IsWrongValue Key.WarnDays text.now (arguments_plain given.now)) }
{
    let Some(text) = given.warn_days else {
        return Ok(None);
    };
    let Some(days) = days_of(text) else {
        return Err(text);
    };
    Ok(Some(days))
}

// Returns whether an option is given.
#[inline(always)]
fn is_given(given: &ParsedArguments<'_>, key: Key) -> bool
    ensures { result ≡ is_some (value_of key (arguments_plain given.now)) }
{
    given.value_of(key).is_some()
}

// Returns whether `--json` is given for the bytes of one certificate.
fn is_bytes_in_json(given: &ParsedArguments<'_>) -> bool
    ensures { result ≡ is_bytes_in_json (arguments_plain given.now) }
{
    is_given(given, Key::Place) && is_given(given, Key::Json)
}

// Returns the task of a command with its file and options.
fn task_of<'a>(
    command: Command,
    file: &'a str,
    given: &ParsedArguments<'a>,
) -> Result<Task<'a>, Misuse<'a>>
    requires kept { KeepsAll command (arguments_plain given.now) }
    ensures read { IfOk result (λ task.
        IsTask command file.now (arguments_plain given.now) task) }
    ensures limit { IfOk result (λ task. 6 ≤ task.limit) }
    ensures amiss { IfErr result (λ misuse.
        IsOptionError command file.now (arguments_plain given.now) misuse) }
{
    let anchors = text_of(given, Key::Anchors, "");
    let answers = text_of(given, Key::Answers, "");
    if shares_input(anchors, answers, file) {
        return Err(Misuse::SharedInput);
    }
    if is_bytes_in_json(given) {
        return Err(Misuse::BytesInJson);
    }
    let moment = time_of(given).map_err(|text| Misuse::Wrong(Key::At, text))?;
    let purpose = purpose_of(given).map_err(|text| Misuse::Wrong(Key::Purpose, text))?;
    let limit = limit_of(given).map_err(|text| Misuse::Wrong(Key::Limit, text))?;
    let place = place_in(given).map_err(|text| Misuse::Wrong(Key::Place, text))?;
    let host = host_in(given).map_err(|text| Misuse::Wrong(Key::Host, text))?;
    let warn_days = days_in(given).map_err(|text| Misuse::Wrong(Key::WarnDays, text))?;
    Ok(Task {
        command,
        file,
        anchors,
        answers,
        moment,
        purpose,
        limit,
        place,
        json: is_given(given, Key::Json),
        digests: is_given(given, Key::Digests),
        leaf_first: is_given(given, Key::LeafFirst),
        fails_on_remark: is_given(given, Key::FailOnRemark),
        demands: Demands {
            host,
            is_strict: is_given(given, Key::Strict),
            warn_days,
        },
    })
}

impl<'a> Task<'a> {
    /// Parses the arguments that follow the program's name.
    ///
    /// Options may be anywhere. The value of an option is the next argument, or follows `=` in the
    /// same one. The default of `--at` is `now`, that of `--purpose` is `serverAuth`, and that of
    /// `--limit` is 65536.
    ///
    /// # Errors
    ///
    /// The first of these that applies:
    ///
    /// - `Words`: an option or another argument is wrong.
    /// - `NoCommand`: the other arguments aren't a command and a file.
    /// - `Missing`, `Excess`: the command requires the option, or doesn't take it.
    /// - `Wrong`, `BytesInJson`, `SharedInput`: a value is wrong, or values exclude each other.
    pub fn parse(words: &[&'a str]) -> Result<Task<'a>, Misuse<'a>>
        ensures read { IfOk result (AsksFor (map (λ word. word.now) words.now)) }
        ensures limit { IfOk result (λ task. 6 ≤ task.limit) }
        ensures refused { IfErr result (IsMisuse (map (λ word. word.now) words.now)) }
    {
        let given = match parse_arguments(words) {
            Ok(given) => given,
            Err(fault) => return Err(Misuse::Words(fault)),
        };
        let Some((command, file)) = command_in(&given) else {
            return Err(Misuse::NoCommand);
        };
        if let Err(misuse) = command.keeps_all(file, &given) {
            return Err(misuse);
        }
        match task_of(command, file, &given) {
            Ok(task) => Ok(task),
            Err(misuse) => Err(misuse),
        }
    }
}

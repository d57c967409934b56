//! Parses the arguments into options, their values and the other words.
ghost use Rattle.std.specs.Prelude.{◌≡◌, map, option_map, Ok};
ghost use Rattle.std.specs.List.{after_first, before_first};
ghost use Rattle.cert_tool.specs.ParsedArguments.{key_of, value_of, with_value, with_word, is_option};
ghost use Rattle.cert_tool.specs.ParsedArguments.{takes_no_value, valued_key, is_equals, with_pair, step};
ghost use Rattle.cert_tool.specs.ParsedArguments.{parse_arguments, arguments_plain, given_read};
ghost use Rattle.cert_tool.specs.ParsedArguments.{given_after, is_end, no_arguments, read_on};
ghost use Rattle.cert_tool.specs.ParsedArguments.{with_option};

/// An option.
#[derive(Clone, Copy)]
pub enum Key {
    /// `--anchors`, a file.
    Anchors,
    /// `--answers`, a file.
    Answers,
    /// `--at`, the validation time.
    At,
    /// `--purpose`, the key purpose of the end entity.
    Purpose,
    /// `--limit`, the maximum number of bytes of a certificate.
    Limit,
    /// `--place`, the index of one certificate.
    Place,
    /// `--json`: prints JSON. It has no value.
    Json,
    /// `--digests`: prints digests too. It has no value.
    Digests,
    /// `--leaf-first`: the end-entity certificate is the first one in the PEM file. It has no
    /// value.
    LeafFirst,
    /// `--strict`: a trusted chain must also meet what the rules of path validation don't check. It
    /// has no value.
    Strict,
    /// `--host`: the end-entity certificate must have this host name or address.
    Host,
    /// `--warn-days`: reports a certificate that expires within this number of days.
    WarnDays,
    /// `--fail-on-remark`: the exit status is 1 if there is a remark. It has no value.
    FailOnRemark,
}

/// An error in one argument.
#[derive(Clone, Copy)]
pub enum ArgumentError<'a> {
    /// The option is unknown, or a value is attached to an option that takes none.
    Unknown(&'a str),
    /// The option is given twice.
    Twice(Key),
    /// The option is the last argument, and its value is missing.
    NoValue(Key),
    /// Three arguments before this one are neither options nor values.
    Surplus(&'a str),
}

// The parsed arguments: the first three that are neither options nor values, the value of each
// option, the option whose value comes next, and whether the options have ended. The value of an
// option that takes none is the option itself.
#[derive(Clone, Copy)]
pub(crate) struct ParsedArguments<'a> {
    pub(crate) first: Option<&'a str>,
    pub(crate) second: Option<&'a str>,
    pub(crate) third: Option<&'a str>,
    pub(crate) anchors: Option<&'a str>,
    pub(crate) answers: Option<&'a str>,
    pub(crate) at: Option<&'a str>,
    pub(crate) purpose: Option<&'a str>,
    pub(crate) limit: Option<&'a str>,
    pub(crate) place: Option<&'a str>,
    pub(crate) json: Option<&'a str>,
    pub(crate) digests: Option<&'a str>,
    pub(crate) leaf_first: Option<&'a str>,
    pub(crate) strict: Option<&'a str>,
    pub(crate) host: Option<&'a str>,
    pub(crate) warn_days: Option<&'a str>,
    pub(crate) fail_on_remark: Option<&'a str>,
    awaited: Option<Key>,
    is_ended: bool,
}

// Returns the option with this name.
fn key_of(word: &str) -> Option<Key>
    ensures { result ≡ key_of word.now }
{
    match word {
        "--anchors" => Some(Key::Anchors),
        "--answers" => Some(Key::Answers),
        "--at" => Some(Key::At),
        "--purpose" => Some(Key::Purpose),
        "--limit" => Some(Key::Limit),
        "--place" => Some(Key::Place),
        "--json" => Some(Key::Json),
        "--digests" => Some(Key::Digests),
        "--leaf-first" => Some(Key::LeafFirst),
        "--strict" => Some(Key::Strict),
        "--host" => Some(Key::Host),
        "--warn-days" => Some(Key::WarnDays),
        "--fail-on-remark" => Some(Key::FailOnRemark),
        _ => None,
    }
}

// Returns whether an option takes no value.
fn takes_no_value(key: Key) -> bool
    ensures { result ≡ takes_no_value key }
{
    matches!(
        key,
        Key::Json | Key::Digests | Key::LeafFirst | Key::Strict | Key::FailOnRemark
    )
}

// Returns the option with this name, if it takes a value.
#[tactic(auto, unfolding(crate::specs::ParsedArguments::valued_key))]
pub(crate) fn valued_key(name: &str) -> Option<Key>
    ensures { result ≡ valued_key name.now }
{
    let Some(key) = key_of(name) else {
        return None;
    };
    if takes_no_value(key) {
        return None;
    }
    Some(key)
}

// Splits an argument at its first `=`. Without one, the second part is empty.
fn parts_of(word: &str) -> (&str, &str)
    ensures name { result.0.now ≡ before_first is_equals word.now }
    ensures value { result.1.now ≡ after_first is_equals word.now }
{
    match word.split_once('=') {
        Some((name, value)) => (name, value),
        None => (word, ""),
    }
}

// Returns whether an argument begins with two dashes.
pub(crate) fn is_option(word: &str) -> bool
    ensures { result ≡ is_option word.now }
{
    word.starts_with("--")
}

// Returns whether an argument is `--`, after which there are no options.
pub(crate) fn is_end(word: &str) -> bool
    ensures { result ≡ is_end word.now }
{
    word == "--"
}

// Returns the result of parsing no arguments.
fn no_arguments<'a>() -> ParsedArguments<'a>
    ensures { arguments_plain result ≡ no_arguments }
{
    ParsedArguments {
        first: None,
        second: None,
        third: None,
        anchors: None,
        answers: None,
        at: None,
        purpose: None,
        limit: None,
        place: None,
        json: None,
        digests: None,
        leaf_first: None,
        strict: None,
        host: None,
        warn_days: None,
        fail_on_remark: None,
        awaited: None,
        is_ended: false,
    }
}

impl<'a> ParsedArguments<'a> {
    // Returns the value of an option, if one is given.
    #[inline(always)]
    pub(crate) fn value_of(&self, key: Key) -> Option<&'a str>
        ensures { option_map (λ text. text.now) result ≡ value_of key (arguments_plain self.now) }
    {
        match key {
            Key::Anchors => self.anchors,
            Key::Answers => self.answers,
            Key::At => self.at,
            Key::Purpose => self.purpose,
            Key::Limit => self.limit,
            Key::Place => self.place,
            Key::Json => self.json,
            Key::Digests => self.digests,
            Key::LeafFirst => self.leaf_first,
            Key::Strict => self.strict,
            Key::Host => self.host,
            Key::WarnDays => self.warn_days,
            Key::FailOnRemark => self.fail_on_remark,
        }
    }

    // Sets the value of an option, and awaits none.
    fn set_value(&mut self, key: Key, text: &'a str)
        ensures { arguments_plain self.new ≡ with_value key text.now (arguments_plain self.old) }
    {
        self.awaited = None;
        let text = Some(text);
        match key {
            Key::Anchors => self.anchors = text,
            Key::Answers => self.answers = text,
            Key::At => self.at = text,
            Key::Purpose => self.purpose = text,
            Key::Limit => self.limit = text,
            Key::Place => self.place = text,
            Key::Json => self.json = text,
            Key::Digests => self.digests = text,
            Key::LeafFirst => self.leaf_first = text,
            Key::Strict => self.strict = text,
            Key::Host => self.host = text,
            Key::WarnDays => self.warn_days = text,
            Key::FailOnRemark => self.fail_on_remark = text,
        }
    }

    // Adds a word, which is neither an option nor a value.
    fn add_word(&mut self, word: &'a str) -> Result<(), ArgumentError<'a>>
        ensures { given_after result self.new ≡ with_word (arguments_plain self.old).first
            (arguments_plain self.old).second (arguments_plain self.old).third word.now
            (arguments_plain self.old) }
    {
        if self.first.is_none() {
            self.first = Some(word);
        } else if self.second.is_none() {
            self.second = Some(word);
        } else if self.third.is_none() {
            self.third = Some(word);
        } else {
            return Err(ArgumentError::Surplus(word));
        }
        Ok(())
    }

    // Adds an option that has its value after `=`. Any other text is an unknown option.
    fn add_pair(&mut self, word: &'a str) -> Result<(), ArgumentError<'a>>
        ensures { given_after result self.new ≡ with_pair
            (valued_key (before_first is_equals word.now)) word.now (arguments_plain self.old) }
    {
        let (name, value) = parts_of(word);
        if let Some(key) = valued_key(name) {
            if self.value_of(key).is_some() {
                return Err(ArgumentError::Twice(key));
            }
            self.set_value(key, value);
            return Ok(());
        }
        Err(ArgumentError::Unknown(word))
    }

    // Adds an argument that begins with two dashes: `--`, or an option.
    fn add_option(&mut self, word: &'a str) -> Result<(), ArgumentError<'a>>
        ensures { given_after result self.new ≡ with_option word.now (arguments_plain self.old) }
    {
        if is_end(word) {
            self.is_ended = true;
            return Ok(());
        }
        if let Some(key) = key_of(word) {
            if self.value_of(key).is_some() {
                return Err(ArgumentError::Twice(key));
            }
            if takes_no_value(key) {
                self.set_value(key, word);
                return Ok(());
            }
            self.awaited = Some(key);
            return Ok(());
        }
        self.add_pair(word)
    }

    // Parses one more argument.
    fn add(&mut self, word: &'a str) -> Result<(), ArgumentError<'a>>
        ensures { given_after result self.new ≡ step (arguments_plain self.old) word.now }
    {
        if let Some(key) = self.awaited {
            self.set_value(key, word);
            return Ok(());
        }
        if self.is_ended {
            return self.add_word(word);
        }
        if is_option(word) {
            return self.add_option(word);
        }
        self.add_word(word)
    }

    // Parses more arguments.
    fn add_all(&mut self, words: &[&'a str]) -> Result<(), ArgumentError<'a>>
        ensures { given_after result self.new
            ≡ read_on (Ok (arguments_plain self.old)) (map (λ word. word.now) words.now) }
    {
        let [word, rest @ ..] = words else {
            return match self.awaited {
                Some(key) => Err(ArgumentError::NoValue(key)),
                None => Ok(()),
            };
        };
        match self.add(word) {
            Ok(()) => self.add_all(rest),
            Err(fault) => Err(fault),
        }
    }
}

// Parses the arguments.
#[tactic(auto, unfolding(crate::specs::ParsedArguments::parse_arguments))]
pub(crate) fn parse_arguments<'a>(
    words: &[&'a str],
) -> Result<ParsedArguments<'a>, ArgumentError<'a>>
    ensures read { given_read result ≡ parse_arguments (map (λ word. word.now) words.now) }
{
    let mut given = no_arguments();
    match given.add_all(words) {
        Ok(()) => Ok(given),
        Err(fault) => Err(fault),
    }
}

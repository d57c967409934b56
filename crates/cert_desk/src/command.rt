//! The command line of `cert_desk`.
ghost use Rattle.std.specs.Prelude.{◌≤◌, map, IfSome, IfNone, string_bytes};
ghost use Rattle.cert_desk.specs.Commands.{AskCheck, AskIssue, AskNoChain, AskNoCheck};
ghost use Rattle.cert_desk.specs.Commands.{AskNoListing, AskShow, AsksFor, HasLimit};

use cert_desk_checking::{limit_in, number_in};
use cert_desk_listing::FileKind;
use cert_desk_listing::oid::ObjectIdentifier;

/// The usage line of the program.
pub const USAGE: &str =
    "usage: cert_desk check ANCHORS STREAM MOMENT PURPOSE LIMIT | show KIND FILE | issue ORDERS\n";

/// The arguments of `check`.
#[derive(Clone, Copy)]
pub struct Arguments<'a> {
    /// The name of the file of trust anchors, which are concatenated (RFC 5914).
    pub anchors: &'a str,
    /// The name of the file with the chain.
    pub stream: &'a str,
    /// The validation time, in seconds since 1970-01-01T00:00:00Z.
    pub moment: u64,
    /// The key purpose for which the chain is validated.
    pub purpose: ObjectIdentifier<39>,
    /// The size limit of a certificate of the chain, in bytes.
    pub limit: u32,
}

impl<'a> Arguments<'a> {
    /// Parses the words of a command line, the first of which is the program's name.
    ///
    /// The validation time and the limit consist of decimal digits. The time is below 2^64, and the
    /// limit is from 6 to 2^32 - 1. Leading zeros are allowed, a sign isn't.
    pub fn parse(words: &'a [String]) -> Option<Arguments<'a>>
        ensures read { IfSome result
            (λ a. AskCheck (map string_bytes words.now) a.anchors.now a.stream.now
            a.moment a.purpose a.limit) }
        ensures limit { IfSome result (λ arguments. 6 ≤ arguments.limit) }
        ensures refused { IfNone result (AskNoCheck (map string_bytes words.now)) }
    {
        let [_, command, anchors, stream, moment, purpose, limit] = words else {
            return None;
        };
        if command.as_str() != "check" {
            return None;
        }
        let Some(moment) = number_in(moment.as_str()) else {
            return None;
        };
        let Ok(purpose) = ObjectIdentifier::<39>::new(purpose.as_str()) else {
            return None;
        };
        let Some(limit) = limit_in(limit.as_str()) else {
            return None;
        };
        Some(Arguments {
            anchors: anchors.as_str(),
            stream: stream.as_str(),
            moment,
            purpose,
            limit,
        })
    }
}

/// A command of the program.
#[derive(Clone, Copy)]
pub enum Command<'a> {
    /// Validates a certificate chain.
    Check(Arguments<'a>),
    /// Prints the contents of the value in a file.
    Show {
        /// The kind of the file.
        kind: FileKind,
        /// The name of the file.
        file: &'a str,
    },
    /// Issues the chain that an orders file asks for.
    Issue {
        /// The name of the orders file.
        orders: &'a str,
    },
}

impl<'a> Command<'a> {
    /// Parses the words of a command line, the first of which is the program's name. The others are
    /// `check ANCHORS STREAM MOMENT PURPOSE LIMIT`, as for `Arguments::parse`, `show KIND FILE`,
    /// where the kind is `certificate`, `list` or `request`, or `issue ORDERS`.
    pub fn parse(words: &'a [String]) -> Option<Command<'a>>
        ensures read { IfSome result (AsksFor (map string_bytes words.now)) }
        ensures limit { IfSome result HasLimit }
        ensures no_check { IfNone result (AskNoCheck (map string_bytes words.now)) }
        ensures no_listing { IfNone result (AskNoListing (map string_bytes words.now)) }
        ensures no_issuing { IfNone result (AskNoChain (map string_bytes words.now)) }
    {
        if let Some(arguments) = Arguments::parse(words) {
            return Some(Command::Check(arguments));
        }
        if let Some((kind, file)) = listing_asked(words) {
            return Some(Command::Show { kind, file });
        }
        let Some(orders) = chain_asked(words) else {
            return None;
        };
        Some(Command::Issue { orders })
    }
}

// Parses `show KIND FILE`. Returns the kind and the name of the file.
fn listing_asked<'a>(words: &'a [String]) -> Option<(FileKind, &'a str)>
    ensures read { IfSome result (λ r. AskShow (map string_bytes words.now) r.0 r.1.now) }
    ensures refused { IfNone result (AskNoListing (map string_bytes words.now)) }
{
    let [_, command, kind, file] = words else {
        return None;
    };
    if command.as_str() != "show" {
        return None;
    }
    let Some(kind) = FileKind::named(kind.as_str()) else {
        return None;
    };
    Some((kind, file.as_str()))
}

// Parses `issue ORDERS`. Returns the name of the orders file.
pub(crate) fn chain_asked<'a>(words: &'a [String]) -> Option<&'a str>
    ensures read { IfSome result (λ r. AskIssue (map string_bytes words.now) r.now) }
    ensures refused { IfNone result (AskNoChain (map string_bytes words.now)) }
{
    let [_, command, orders] = words else {
        return None;
    };
    if command.as_str() != "issue" {
        return None;
    }
    Some(orders.as_str())
}

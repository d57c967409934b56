//! Certificates of each profile.

ghost use Rattle.std.specs.Prelude.{◌≡◌, ◌++◌, ◌∷◌, [], IfOk};
ghost use Rattle.der_core.specs.Shapes.{octets_of};
ghost use Rattle.x509_cert_builders.specs.SignedParts.{part_shape};
ghost use Rattle.x509_cert_builders.specs.States.{part_for};
ghost use Rattle.x509_cert_builders.specs.CertParts.Views.{extension_plain};

use crate::building::builders::{Asked, Change, Manner, part_of, whole_of};
use crate::building::refusals::Refusal;
use crate::building::words::{Words, extension_of, key_of, octets_of, time_of, written_in};
use crate::shown::list_in;
use const_oid::ObjectIdentifier;
use std::alloc::Global;
use std::str::FromStr;
use x509_cert::builder::{
    Builder, BuilderProfile, CertificateBuilder, CertificateType, DevId, Root, Signer, Subordinate,
    Subscriber, Tls12Options, TpmVersion,
};
use x509_cert::{
    Certificate, Extension, GeneralName, GeneralNames, Name, OctetString, SerialNumber, Validity,
};

impl<P: BuilderProfile + Drop> Change for CertificateBuilder<P> {
    fn change(&mut self, alloc: Global, word: &str) -> Result<(), Refusal> {
        if word == "-" {
            return Ok(());
        }
        let extension = extension_of(alloc, word)?;
        self.add_extension(alloc, extension)?;
        Ok(())
    }
}

/// The fields that a certificate has whatever its profile, and what is asked of its builder.
#[derive(Clone, Copy)]
struct Settled<'a> {
    serial: &'a str,
    from: &'a str,
    until: &'a str,
    key: &'a str,
    asked: Asked<'a>,
}

impl<'a> Settled<'a> {
    /// Parses the next words: `SERIAL FROM UNTIL KEY SIGNER ADDED`.
    fn parse(manner: Manner, words: &mut Words<'a>) -> Result<Settled<'a>, Refusal> {
        let serial = words.next()?;
        let from = words.next()?;
        let until = words.next()?;
        let key = words.next()?;
        let signer = words.next()?;
        let change = words.next()?;
        Ok(Settled {
            serial,
            from,
            until,
            key,
            asked: Asked {
                manner,
                change,
                signer,
            },
        })
    }

    /// Returns a builder with a profile.
    fn builder<P: BuilderProfile + Drop>(
        &self,
        alloc: Global,
        profile: P,
    ) -> Result<CertificateBuilder<P>, Refusal> {
        let serial = serial_of(alloc, self.serial)?;
        let validity = Validity::new(time_of(self.from)?, time_of(self.until)?);
        let key = key_of(alloc, self.key)?;
        let builder = CertificateBuilder::new(alloc, profile, serial, validity, key)?;
        Ok(builder)
    }

    /// Returns the encoding of what is built with a profile.
    fn made<P: BuilderProfile + Drop>(
        &self,
        alloc: Global,
        profile: P,
    ) -> Result<Vec<u8>, Refusal> {
        made_by(alloc, self.builder(alloc, profile)?, &self.asked)
    }
}

/// Returns the signed part if an extension is added between two calls of `finalize`. Its extensions
/// are those added before, this one, and those of the profile, which are built anew. This follows
/// from the contracts of the three calls.
fn signed_with<P: BuilderProfile + Drop, S: Signer>(
    alloc: Global,
    builder: &mut CertificateBuilder<P>,
    extension: Extension,
    signer: &S,
) -> Result<Vec<u8>, Refusal>
    ensures { IfOk result (λ v. v.items
        ≡ octets_of part_shape
        (part_for P.extensions
        (record builder.old { added = builder.old.added ++ extension_plain extension ∷ [] })
        (S.public_key signer.now) (S.signs_by signer.now))) }
{
    let _before = builder.finalize(alloc, signer)?;
    builder.add_extension(alloc, extension)?;
    let octets = builder.finalize(alloc, signer)?;
    Ok(octets)
}

/// Returns the encoding of what a builder builds.
fn made_by<P: BuilderProfile + Drop>(
    alloc: Global,
    mut builder: CertificateBuilder<P>,
    asked: &Asked<'_>,
) -> Result<Vec<u8>, Refusal> {
    if let Manner::Between = asked.manner {
        let extension = extension_of(alloc, asked.change)?;
        signed_with(alloc, &mut builder, extension, &asked.signer(alloc)?)
    } else if asked.manner.is_part() {
        part_of(alloc, &mut builder, asked)
    } else {
        written_in::<Certificate>(alloc, whole_of(alloc, builder, asked))
    }
}

/// Parses a serial number.
fn serial_of(alloc: Global, word: &str) -> Result<SerialNumber, Refusal> {
    let octets = octets_of(alloc, word)?;
    Ok(SerialNumber::new(alloc, octets.as_slice())?)
}

/// Returns whether a word is the name of a profile.
pub fn is_profile(kind: &str) -> bool {
    match kind {
        "root" | "subordinate" | "subscriber" | "device" | "module" => true,
        _ => false,
    }
}

/// Builds a certificate with the profile that the first word names.
pub fn answer(alloc: Global, manner: Manner, rest: &str) -> Result<Vec<u8>, Refusal> {
    let mut words = Words { rest };
    let kind = words.next()?;
    let flags = words.next()?;
    match kind {
        "root" => root(alloc, manner, flags, &mut words),
        "subordinate" => subordinate(alloc, manner, flags, &mut words),
        "subscriber" => subscriber(alloc, manner, flags, &mut words),
        "device" => {
            let told = DeviceWords::Names(words.next()?);
            device(alloc, manner, &told, &mut words)
        }
        "module" => {
            let version = words.next()?;
            let told = DeviceWords::Module(version, words.next()?);
            device(alloc, manner, &told, &mut words)
        }
        _ => Err(Refusal::Unread),
    }
}

/// Builds a root. The last word is `SUBJECT`.
fn root(
    alloc: Global,
    manner: Manner,
    flags: &str,
    words: &mut Words<'_>,
) -> Result<Vec<u8>, Refusal> {
    let settled = Settled::parse(manner, words)?;
    let subject = words.name(alloc)?;
    let profile = Root::new(alloc, flags.contains('o'), subject)?;
    settled.made(alloc, profile)
}

/// Parses a path length, or returns none for a dash.
fn path_of(word: &str) -> Result<Option<u8>, Refusal> {
    if word == "-" {
        return Ok(None);
    }
    let Ok(path) = u8::from_str(word) else {
        return Err(Refusal::Unread);
    };
    Ok(Some(path))
}

/// Builds a CA below another one. The first word is `PATH`, and the last is `ISSUER|SUBJECT`.
fn subordinate(
    alloc: Global,
    manner: Manner,
    flags: &str,
    words: &mut Words<'_>,
) -> Result<Vec<u8>, Refusal> {
    let path_len_constraint = path_of(words.next()?)?;
    let settled = Settled::parse(manner, words)?;
    let issuer = words.name(alloc)?;
    let subject = words.name(alloc)?;
    let profile = Subordinate {
        issuer,
        subject,
        path_len_constraint,
        emits_ocsp_response: flags.contains('o'),
        client_auth: flags.contains('c'),
    };
    settled.made(alloc, profile)
}

/// Returns the kind of subscriber with this name.
fn type_of(alloc: Global, word: &str, subject: Name) -> Result<CertificateType, Refusal> {
    match word {
        "domain" => {
            let kind = CertificateType::domain_validated(alloc, subject, Vec::new(alloc))?;
            Ok(kind)
        }
        "individual" => Ok(CertificateType::IndividualValidated),
        "organization" => Ok(CertificateType::OrganizationValidated),
        "extended" => Ok(CertificateType::ExtendedValidation),
        _ => Err(Refusal::Unread),
    }
}

/// Builds the certificate of a server. The first word is its kind, and the last is
/// `ISSUER|SUBJECT`.
fn subscriber(
    alloc: Global,
    manner: Manner,
    flags: &str,
    words: &mut Words<'_>,
) -> Result<Vec<u8>, Refusal> {
    let kind = words.next()?;
    let settled = Settled::parse(manner, words)?;
    let issuer = words.name(alloc)?;
    let subject = words.name(alloc)?;
    let certificate_type = type_of(alloc, kind, subject)?;
    let profile = Subscriber {
        certificate_type,
        issuer,
        client_auth: flags.contains('c'),
        tls12_options: Tls12Options {
            enable_key_encipherment: flags.contains('k'),
            enable_key_agreement: flags.contains('a'),
        },
        enable_data_encipherment: flags.contains('d'),
    };
    settled.made(alloc, profile)
}

/// Returns the version with this name.
fn version_of(word: &str) -> Result<TpmVersion, Refusal> {
    match word {
        "1.2" => Ok(TpmVersion::Tpm12),
        "2.0" => Ok(TpmVersion::Tpm20),
        word => match ObjectIdentifier::new(word) {
            Ok(oid) => Ok(TpmVersion::Other(oid)),
            Err(_) => Err(Refusal::Unread),
        },
    }
}

/// Decodes alternative names, or returns none for a dash.
fn names_of(alloc: Global, word: &str) -> Result<Option<GeneralNames>, Refusal> {
    if word == "-" {
        return Ok(None);
    }
    let octets = octets_of(alloc, word)?;
    let names = list_in::<GeneralName>(alloc, octets.as_slice())?;
    Ok(Some(names))
}

/// The words that describe a device.
#[derive(Clone, Copy)]
enum DeviceWords<'a> {
    /// The alternative names, or none.
    Names(&'a str),
    /// The version and the serial number of its module.
    Module(&'a str, &'a str),
}

impl DeviceWords<'_> {
    /// Returns the profile.
    fn profile(&self, alloc: Global, issuer: Name, subject: Name) -> Result<DevId, Refusal> {
        match self {
            DeviceWords::Names(word) => {
                let names = names_of(alloc, word)?;
                let profile = DevId::new(alloc, issuer, subject, names)?;
                Ok(profile)
            }
            DeviceWords::Module(version, word) => {
                let version = version_of(version)?;
                let serial = OctetString::new(octets_of(alloc, word)?)?;
                let profile = DevId::idevid_tpm(alloc, issuer, subject, version, serial)?;
                Ok(profile)
            }
        }
    }
}

/// Builds the certificate of a device. The last word is `ISSUER|SUBJECT`.
fn device(
    alloc: Global,
    manner: Manner,
    device: &DeviceWords<'_>,
    words: &mut Words<'_>,
) -> Result<Vec<u8>, Refusal> {
    let settled = Settled::parse(manner, words)?;
    let issuer = words.name(alloc)?;
    let subject = words.name(alloc)?;
    let profile = device.profile(alloc, issuer, subject)?;
    settled.made(alloc, profile)
}

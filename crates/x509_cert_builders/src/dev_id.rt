ghost use Rattle.std.specs.Prelude.{◌≡◌, ◌⊎◌, ◌∷◌, ◌++◌, [], true, false, Ok, Some, IsOk, IfOk};
ghost use Rattle.std.specs.Prelude.{IfErr, OnOk};
ghost use Rattle.x509_cert_certificates.specs.Der.Grammar.{plain_list, plain_option};
ghost use Rattle.x509_cert_certificates.specs.Certificates.{tbs_subject};
ghost use Rattle.x509_cert_certificates.specs.CertParts.Views.{extensions_plain};
ghost use Rattle.x509_cert_certificates.specs.CertNames.Views.{name_plain};
ghost use Rattle.x509_cert_extensions.specs.CertGeneralNames.GeneralNameViews.{general_name_plain};
ghost use Rattle.x509_cert_builders.specs.Devices.{IsUnnameable, MayHave, MayNotHave, alternatives};
ghost use Rattle.x509_cert_builders.specs.Devices.{PlainGeneralName, device_extensions, module_of};
ghost use Rattle.x509_cert_builders.specs.Devices.{device_names, first_module, is_of_module};
ghost use Rattle.x509_cert_builders.specs.Devices.{module_name, version_arcs};
ghost use Rattle.x509_cert_builders.specs.Refusals.{FailsAs, IsWantOfMemory};

use crate::added_extensions::{add, add_authority, add_usage};
use crate::build_error::Error;
use crate::builder_profile::BuilderProfile;
use crate::tpm_version::TpmVersion;
use std::alloc::Global;
use x509_cert_certificates::TbsCertificate;
use x509_cert_certificates::cert_names::Name;
use x509_cert_certificates::cert_parts::{Extensions, SubjectPublicKeyInfoRef};
use x509_cert_certificates::der::ErrorKind;
use x509_cert_certificates::types::{FlagSet, OctetString};
use x509_cert_extensions::cert_general_names::{
    GeneralName, GeneralNames, HardwareModuleName, OtherName,
};
use x509_cert_extensions::{KeyUsage, KeyUsages, SubjectAltName};

/// The profile of a certificate for a device with a secure identity (IEEE 802.1AR 8).
#[derive(Drop)]
pub struct DevId {
    /// The name of the issuer.
    pub issuer: Name,
    pub(crate) subject: Name,
    pub(crate) subject_alt_name: Option<SubjectAltName>,
}

/// Returns whether a general name is a hardware module name.
///
/// # Errors
///
/// - `Asn1`: its value isn't a hardware module name although its OID says so, or memory runs out.
fn is_of_module(alloc: Global, name: &GeneralName) -> Result<bool, Error>
    ensures other { is_of_module (general_name_plain name.now) ≡ false → result ≡ Ok false }
    ensures held { is_of_module (general_name_plain name.now) ≡ true
        → IfOk result (λ b. (b ≡ true) × IsOk (module_of (general_name_plain name.now))) }
    ensures faulty { is_of_module (general_name_plain name.now) ≡ true
        → IfErr result (FailsAs (module_of (general_name_plain name.now))) }
{
    let GeneralName::OtherName(other) = name else {
        return Ok(false);
    };
    let module = HardwareModuleName::from_other_name(alloc, other)?;
    Ok(module.is_some())
}

/// Checks that there is a hardware module name among these names, and that the value of the first
/// one is valid.
///
/// # Errors
///
/// - `Asn1` with `Failed`: there is none.
/// - `Asn1` with an error of `HardwareModuleName::from_other_name`: the value of the first one is
///   invalid, or memory runs out.
fn check_module(alloc: Global, names: &[GeneralName]) -> Result<(), Error>
    ensures held { OnOk result (IsOk (first_module (plain_list general_name_plain names.now))) }
    ensures refused { IfErr result
        (FailsAs (first_module (plain_list general_name_plain names.now))) }
{
    for place in 0..names.len() {
        if is_of_module(alloc, &names[place])? {
            return Ok(());
        }
    }
    Err(Error::Asn1(x509_cert_certificates::der::Error::from(ErrorKind::Failed)))
}

impl DevId {
    /// Returns the profile of a device with this name. If there are alternative names, one of them
    /// must be a hardware module name (IEEE 802.1AR 8.10.4).
    ///
    /// # Errors
    ///
    /// - `Asn1` with `Failed`: none of the alternative names is a hardware module name.
    /// - `Asn1` with an error of `HardwareModuleName::from_other_name`: the value of the first
    ///   hardware module name is invalid.
    /// - `Asn1` with `OutOfMemory`: memory runs out.
    pub fn new(
        alloc: Global,
        issuer: Name,
        subject: Name,
        alt_names: Option<GeneralNames>,
    ) -> Result<DevId, Error>
        ensures module { IfOk result
            (λ _. MayHave (plain_option (λ v. plain_list general_name_plain v.items) alt_names)) }
        ensures refused { IfErr result
            (MayNotHave (plain_option (λ v. plain_list general_name_plain v.items) alt_names)) }
        ensures issuer { IfOk result (λ d. name_plain d.issuer ≡ name_plain issuer) }
        ensures subject { IfOk result (λ d. ⟦<DevId as BuilderProfile>⟧.subject_name d
            ≡ Ok (name_plain subject)) }
        ensures names { IfOk result
            (λ d. device_names d ≡ plain_option (λ v. plain_list general_name_plain v.items)
            alt_names) }
    {
        let Some(names) = alt_names else {
            return Ok(DevId {
                issuer,
                subject,
                subject_alt_name: None,
            });
        };
        check_module(alloc, names.as_slice())?;
        Ok(DevId {
            issuer,
            subject,
            subject_alt_name: Some(SubjectAltName(names)),
        })
    }

    /// Returns the profile of a device whose initial device identity key is in a TPM of this
    /// version with this serial number (Trusted Computing Group, TPM 2.0 Keys for Device Identity
    /// and Attestation).
    ///
    /// # Errors
    ///
    /// - `Asn1` with `Overflow`: a length exceeds 2^32 - 1.
    /// - `Asn1` with `OutOfMemory`: memory runs out.
    #[tactic(auto, using(crate::proofs::Faults::want_fails))]
    pub fn idevid_tpm(
        alloc: Global,
        issuer: Name,
        subject: Name,
        hw_type: TpmVersion,
        serial_number: OctetString,
    ) -> Result<DevId, Error>
        ensures issuer { IfOk result (λ d. name_plain d.issuer ≡ name_plain issuer) }
        ensures subject { IfOk result (λ d. ⟦<DevId as BuilderProfile>⟧.subject_name d
            ≡ Ok (name_plain subject)) }
        ensures module { IfOk result (λ d. (n : PlainGeneralName)
            × (module_name (version_arcs hw_type) serial_number ≡ Ok n)
            × (device_names d ≡ Some (n ∷ []))) }
        ensures refused { IfErr result
            (FailsAs (module_name (version_arcs hw_type) serial_number)) }
    {
        let module = HardwareModuleName {
            hw_type: hw_type.to_oid(),
            hw_serial_num: serial_number,
        };
        let other = OtherName::try_from(alloc, &module)?;
        let mut names = Vec::new(alloc);
        names.push(GeneralName::OtherName(other))?;
        Ok(DevId {
            issuer,
            subject,
            subject_alt_name: Some(SubjectAltName(names)),
        })
    }
}

/// Appends the alternative names, if there are any.
///
/// # Errors
///
/// - `Asn1` with the error of encoding the names: they have no encoding.
/// - `Asn1` with `OutOfMemory`: memory runs out.
fn add_alternatives(
    alloc: Global,
    extensions: &mut Extensions,
    subject: &Name,
    names: &Option<SubjectAltName>,
) -> Result<(), Error>
    ensures added { OnOk result (extensions_plain extensions.new.items
        ≡ extensions_plain extensions.old.items
        ++ alternatives (name_plain subject.now)
        (plain_option (λ v. plain_list general_name_plain v.0.items) names.now)) }
    ensures refused { IfErr result
        (λ e. IsWantOfMemory e
        ⊎ IsUnnameable (plain_option (λ v. plain_list general_name_plain v.0.items) names.now) e) }
{
    match names {
        Some(names) => add(alloc, extensions, subject, 17, names),
        None => Ok(()),
    }
}

impl BuilderProfile for DevId {
    ghost issuer_name = { λ device _. name_plain device.issuer };

    ghost subject_name = { λ device. Ok (name_plain device.subject) };

    ghost extensions = { λ device _ issuer_key t. device_extensions (device_names device)
        (tbs_subject t)
        issuer_key };

    // The alternative names have no encoding.
    ghost refuses = { λ device e. IsUnnameable (device_names device) e };

    fn get_issuer(&self, alloc: Global, _subject: &Name) -> Result<Name, Error> {
        Ok(self.issuer.clone(alloc)?)
    }

    fn get_subject(&self, alloc: Global) -> Result<Name, Error> {
        Ok(self.subject.clone(alloc)?)
    }

    fn build_extensions<'a, 'b>(
        &self,
        alloc: Global,
        _spk: &SubjectPublicKeyInfoRef<'a>,
        issuer_spk: &SubjectPublicKeyInfoRef<'b>,
        tbs: &TbsCertificate,
    ) -> Result<Extensions, Error> {
        let subject = tbs.subject();
        let mut extensions = Vec::with_capacity(alloc, 3)?;
        add_authority(alloc, &mut extensions, subject, issuer_spk)?;
        let usage = KeyUsage(FlagSet::from_flag(KeyUsages::DigitalSignature));
        add_usage(alloc, &mut extensions, subject, usage)?;
        add_alternatives(alloc, &mut extensions, subject, &self.subject_alt_name)?;
        Ok(extensions)
    }
}

use crate::build_error::Error;
use std::alloc::Global;
use x509_cert_certificates::TbsCertificate;
use x509_cert_certificates::cert_names::Name;
use x509_cert_certificates::cert_parts::{Extensions, SubjectPublicKeyInfoRef};

/// A profile determines the names and the extensions of a certificate that is built.
///
/// Apart from errors, each result depends only on the arguments.
pub trait BuilderProfile {
    ghost use Rattle.std.specs.Prelude.{◌≡◌, ◌⊎◌, List, Result, Ok, Err, IfOk, IfErr};
    ghost use Rattle.x509_cert_builders.specs.declared.build_error.Error.{Error};
    ghost use Rattle.x509_cert_builders.specs.Refusals.{IsWantOfMemory};
    ghost use Rattle.x509_cert_certificates.specs.Certificates.{Tbs};
    ghost use Rattle.x509_cert_certificates.specs.Views.{tbs_plain};
    ghost use Rattle.x509_cert_certificates.specs.CertParts.Grammar.{PlainExtension, PublicKey};
    ghost use Rattle.x509_cert_certificates.specs.CertNames.Names.{PlainName};
    ghost use Rattle.x509_cert_certificates.specs.CertParts.Views.{extensions_plain, key_lent};
    ghost use Rattle.x509_cert_certificates.specs.CertNames.Views.{name_plain};

    // The issuer's name, given the subject's name.
    ghost issuer_name: { Self → PlainName → PlainName };

    // The subject's name, or the error if there is none.
    ghost subject_name: { Self → Result PlainName Error };

    // The extensions, given the certified key, the issuer's key, and the TBSCertificate without
    // extensions.
    ghost extensions: { Self → PublicKey → PublicKey → Tbs → List PlainExtension };

    // The errors of `get_issuer` and `build_extensions`, except that memory runs out.
    ghost refuses: { Self → Error → Type 0 };

    /// Returns the issuer's name.
    ///
    /// # Errors
    ///
    /// - The errors of the profile.
    /// - `Asn1` with `OutOfMemory`: memory runs out.
    fn get_issuer(&self, alloc: Global, subject: &Name) -> Result<Name, Error>
        ensures name { IfOk result
            (λ n. name_plain n ≡ issuer_name self.now (name_plain subject.now)) }
        ensures refused { IfErr result (λ e. IsWantOfMemory e ⊎ refuses self.now e) };

    /// Returns the subject's name.
    ///
    /// # Errors
    ///
    /// - The errors of the profile.
    /// - `Asn1` with `OutOfMemory`: memory runs out.
    fn get_subject(&self, alloc: Global) -> Result<Name, Error>
        ensures name { IfOk result (λ n. subject_name self.now ≡ Ok (name_plain n)) }
        ensures refused { IfErr result (λ e. IsWantOfMemory e ⊎ (subject_name self.now ≡ Err e)) };

    /// Returns the extensions that the profile adds, in their order. The builder passes the
    /// TBSCertificate with version 3 and without extensions.
    ///
    /// # Errors
    ///
    /// - The errors of the profile.
    /// - `Asn1` with `OutOfMemory`: memory runs out.
    fn build_extensions<'a, 'b>(
        &self,
        alloc: Global,
        spk: &SubjectPublicKeyInfoRef<'a>,
        issuer_spk: &SubjectPublicKeyInfoRef<'b>,
        tbs: &TbsCertificate,
    ) -> Result<Extensions, Error>
        ensures made { IfOk result (λ v. extensions_plain v.items
            ≡ extensions self.now (key_lent spk.now) (key_lent issuer_spk.now)
            (tbs_plain tbs.now)) }
        ensures refused { IfErr result (λ e. IsWantOfMemory e ⊎ refuses self.now e) };
}

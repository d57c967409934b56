ghost use Rattle.std.specs.Prelude.{◌≡◌};
ghost use Rattle.x509_cert_builders.specs.Devices.{version_arcs};

use crate::identifiers::{tcg_sv_tpm_12, tcg_sv_tpm_20};
use x509_cert_certificates::oid::ObjectIdentifier;

/// The version of the TPM (Trusted Platform Module) that stores the key of a device.
#[derive(Clone, Debug, Drop, PartialEq)]
pub enum TpmVersion {
    /// Version 1.2.
    Tpm12,
    /// Version 2.0.
    Tpm20,
    /// Another version, by its OID.
    Other(ObjectIdentifier<39>),
}

impl TpmVersion {
    /// Returns the OID of the version.
    pub(crate) fn to_oid(&self) -> ObjectIdentifier<39>
        ensures { result ≡ version_arcs self.now }
    {
        match self {
            TpmVersion::Tpm12 => tcg_sv_tpm_12(),
            TpmVersion::Tpm20 => tcg_sv_tpm_20(),
            TpmVersion::Other(oid) => *oid,
        }
    }
}

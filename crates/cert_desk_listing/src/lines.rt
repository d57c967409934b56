//! Builds the lines of a listing.
ghost use Rattle.std.specs.Prelude.{◌≡◌, ◌++◌, codes, Some, IfOk, IfSome, OnOk, string_bytes};
ghost use Rattle.std.specs.List.{flat_map};
ghost use Rattle.x509_cert_lists.specs.Der.Grammar.{plain_option, plain_list};
ghost use Rattle.x509_cert_lists.specs.CertNames.Views.{name_plain, attribute_plain};
ghost use Rattle.x509_cert_lists.specs.CertParts.Views.{extension_plain, extensions_plain};
ghost use Rattle.x509_cert_lists.specs.CertParts.Views.{time_value};
ghost use Rattle.x509_cert_lists.specs.ListViews.{revoked_cert_plain};
ghost use Rattle.x509_cert_lists.specs.CertNames.PlainTexts.{name_text};
ghost use Rattle.x509_cert_lists.specs.CertParts.Texts.{serial_text, time_text};
ghost use Rattle.cert_desk_listing.specs.Listing.{alone, labelled, extension_line, extension_lines};
ghost use Rattle.cert_desk_listing.specs.Listing.{next_update_line, revoked_line, revoked_lines};
ghost use Rattle.cert_desk_listing.specs.Listing.{value_lines, attribute_lines};
ghost use Rattle.cert_desk_listing.specs.Parts.{members_in_field};

use std::alloc::{AllocError, Global};
use std::fmt;
use x509_cert_lists::cert_names::{Attribute, Name};
use x509_cert_lists::cert_parts::{Extension, Extensions, SerialNumber, Time};
use x509_cert_lists::der::making::is_out_of_memory;
use x509_cert_lists::oid::AssociatedOid;
use x509_cert_lists::types::Any;
use x509_cert_lists::{ExtensionReq, RevokedCert};

/// The capacity that is reserved first. The lines of most certificates need less.
const FIRST_ROOM: usize = 512;

/// The lines so far. Each ends with LF.
#[derive(Drop)]
pub(crate) struct Lines {
    pub(crate) text: String,
}

impl Lines {
    /// Returns a single line with a label.
    pub(crate) fn new(alloc: Global, label: &str) -> Result<Lines, AllocError>
        ensures { IfOk result (λ lines. string_bytes lines.text ≡ alone label.now) }
    {
        let mut text = String::with_capacity(alloc, FIRST_ROOM)?;
        writeln!(text, "{label}")?;
        Ok(Lines { text })
    }

    /// Appends a label and a value.
    fn labelled<D: fmt::Display + Drop>(&mut self, label: &str, value: D) -> Result<(), AllocError>
        ensures { OnOk result
            (IfSome (D.output value) (λ text. string_bytes self.new.text
            ≡ string_bytes self.old.text ++ labelled label.now text)) }
    {
        writeln!(self.text, "{label} {value}")?;
        Ok(())
    }

    /// Appends a label and a name.
    pub(crate) fn name(&mut self, label: &str, name: &Name) -> Result<(), AllocError>
        ensures { OnOk result (string_bytes self.new.text ≡ string_bytes self.old.text
            ++ labelled label.now (name_text (name_plain name.now))) }
    {
        self.labelled(label, name)?;
        Ok(())
    }

    /// Appends a label and a date.
    pub(crate) fn date(&mut self, label: &str, date: &Time) -> Result<(), AllocError>
        ensures { OnOk result (string_bytes self.new.text ≡ string_bytes self.old.text
            ++ labelled label.now (time_text (time_value date.now))) }
    {
        self.labelled(label, date)?;
        Ok(())
    }

    /// Appends the serial number of a certificate.
    pub(crate) fn serial<P>(&mut self, number: &SerialNumber<P>) -> Result<(), AllocError>
        ensures { OnOk result (string_bytes self.new.text ≡ string_bytes self.old.text
            ++ labelled (codes "serial") (serial_text number.now)) }
    {
        self.labelled("serial", number)?;
        Ok(())
    }

    /// Appends the date of the next CRL, if there is one.
    pub(crate) fn next_update(&mut self, date: &Option<Time>) -> Result<(), AllocError>
        ensures { OnOk result (string_bytes self.new.text ≡ string_bytes self.old.text
            ++ next_update_line (plain_option time_value date.now)) }
    {
        let Some(date) = date else {
            return Ok(());
        };
        self.date("next-update", date)?;
        Ok(())
    }

    /// Appends an extension.
    fn extension(&mut self, extension: &Extension) -> Result<(), AllocError>
        ensures { OnOk result (string_bytes self.new.text ≡ string_bytes self.old.text
            ++ extension_line (extension_plain extension.now)) }
    {
        let id = extension.extn_id;
        if extension.critical {
            writeln!(self.text, "extension {id} critical")?;
        } else {
            writeln!(self.text, "extension {id}")?;
        }
        Ok(())
    }

    /// Appends extensions, in their order.
    pub(crate) fn extensions(&mut self, extensions: &[Extension]) -> Result<(), AllocError>
        ensures { OnOk result (string_bytes self.new.text ≡ string_bytes self.old.text
            ++ extension_lines (extensions_plain extensions.now)) }
    {
        for extension in extensions {
            self.extension(extension)?;
        }
        Ok(())
    }

    /// Appends an entry of a CRL.
    fn entry<P>(&mut self, entry: &RevokedCert<P>) -> Result<(), AllocError>
        ensures { OnOk result (string_bytes self.new.text ≡ string_bytes self.old.text
            ++ revoked_line (revoked_cert_plain entry.now)) }
    {
        let number = &entry.serial_number;
        let date = &entry.revocation_date;
        writeln!(self.text, "revoked {number} {date}")?;
        Ok(())
    }

    /// Appends entries of a CRL, in their order.
    fn entries<P>(&mut self, entries: &[RevokedCert<P>]) -> Result<(), AllocError>
        ensures { OnOk result (string_bytes self.new.text ≡ string_bytes self.old.text
            ++ revoked_lines (plain_list revoked_cert_plain entries.now)) }
    {
        for entry in entries {
            self.entry(entry)?;
        }
        Ok(())
    }

    /// Appends the entries of a CRL, if there are any.
    pub(crate) fn any_entries<P>(
        &mut self,
        entries: &Option<Vec<RevokedCert<P>>>,
    ) -> Result<(), AllocError>
        ensures { OnOk result (string_bytes self.new.text ≡ string_bytes self.old.text
            ++ revoked_lines
            (members_in_field
            (plain_option (λ v. plain_list revoked_cert_plain v.items) entries.now))) }
    {
        let Some(entries) = entries else {
            return Ok(());
        };
        self.entries(entries.as_slice())?;
        Ok(())
    }

    /// Appends the extensions of a CRL, if there are any.
    pub(crate) fn any_extensions(
        &mut self,
        extensions: &Option<Extensions>,
    ) -> Result<(), AllocError>
        ensures { OnOk result (string_bytes self.new.text ≡ string_bytes self.old.text
            ++ extension_lines
            (members_in_field (plain_option (λ v. extensions_plain v.items) extensions.now))) }
    {
        let Some(extensions) = extensions else {
            return Ok(());
        };
        self.extensions(extensions.as_slice())?;
        Ok(())
    }

    /// Appends the extensions that a value of an attribute requests, or nothing if it can't be
    /// decoded as extensions.
    fn requested(&mut self, alloc: Global, value: &Any) -> Result<(), AllocError>
        ensures { OnOk result (string_bytes self.new.text ≡ string_bytes self.old.text
            ++ value_lines value.now) }
    {
        let request = match value.decode_as::<ExtensionReq>(alloc) {
            Ok(request) => request,
            Err(error) => {
                if is_out_of_memory(&error) {
                    return Err(AllocError);
                }
                return Ok(());
            }
        };
        self.extensions(request.0.as_slice())?;
        Ok(())
    }

    /// Appends an attribute, and the extensions that it requests.
    fn attribute(&mut self, alloc: Global, attribute: &Attribute) -> Result<(), AllocError>
        ensures { OnOk result (string_bytes self.new.text ≡ string_bytes self.old.text
            ++ attribute_lines (attribute_plain attribute.now)) }
    {
        self.labelled("attribute", attribute.oid)?;
        if attribute.oid != ExtensionReq::associated_oid() {
            return Ok(());
        }
        self.all_requested(alloc, attribute.values.values.as_slice())?;
        Ok(())
    }

    /// Appends the extensions that the values of an attribute request.
    fn all_requested(&mut self, alloc: Global, values: &[Any]) -> Result<(), AllocError>
        ensures { OnOk result (string_bytes self.new.text ≡ string_bytes self.old.text
            ++ flat_map value_lines values.now) }
    {
        for value in values {
            self.requested(alloc, value)?;
        }
        Ok(())
    }

    /// Appends attributes, in their order.
    pub(crate) fn attributes(
        &mut self,
        alloc: Global,
        attributes: &[Attribute],
    ) -> Result<(), AllocError>
        ensures { OnOk result (string_bytes self.new.text ≡ string_bytes self.old.text
            ++ flat_map attribute_lines (plain_list attribute_plain attributes.now)) }
    {
        for attribute in attributes {
            self.attribute(alloc, attribute)?;
        }
        Ok(())
    }
}

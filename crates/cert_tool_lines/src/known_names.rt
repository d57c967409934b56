//! Identifiers that are well known, and their names.
//!
//! An identifier is encoded as X.690 8.19 says, so that an arc below 128 is one byte. Each function
//! names those that differ in their last byte, as their documents name them; a name is empty if
//! there is none.

// Names attributes (X.520, RFC 4519, ETSI EN 319 412-1).
fn attribute_name(last: u8) -> &'static str {
    match last {
        3 => "commonName",
        4 => "surname",
        5 => "serialNumber",
        6 => "countryName",
        7 => "localityName",
        8 => "stateOrProvinceName",
        9 => "streetAddress",
        10 => "organizationName",
        11 => "organizationalUnitName",
        12 => "title",
        13 => "description",
        15 => "businessCategory",
        16 => "postalAddress",
        17 => "postalCode",
        18 => "postOfficeBox",
        19 => "physicalDeliveryOfficeName",
        20 => "telephoneNumber",
        23 => "facsimileTelephoneNumber",
        24 => "x121Address",
        26 => "registeredAddress",
        27 => "destinationIndicator",
        31 => "member",
        32 => "owner",
        33 => "roleOccupant",
        34 => "seeAlso",
        41 => "name",
        42 => "givenName",
        43 => "initials",
        44 => "generationQualifier",
        45 => "x500UniqueIdentifier",
        46 => "dnQualifier",
        49 => "distinguishedName",
        50 => "uniqueMember",
        51 => "houseIdentifier",
        54 => "dmdName",
        65 => "pseudonym",
        72 => "role",
        97 => "organizationIdentifier",
        98 => "countryCode3c",
        99 => "countryCode3n",
        _ => "",
    }
}

// Names extensions (RFC 5280 4.2, 5.2, 5.3, RFC 3280 5.3.2, RFC 5755 4.3).
fn extension_name(last: u8) -> &'static str {
    match last {
        9 => "subjectDirectoryAttributes",
        14 => "subjectKeyIdentifier",
        15 => "keyUsage",
        16 => "privateKeyUsagePeriod",
        17 => "subjectAltName",
        18 => "issuerAltName",
        19 => "basicConstraints",
        20 => "cRLNumber",
        21 => "reasonCode",
        23 => "holdInstructionCode",
        24 => "invalidityDate",
        27 => "deltaCRLIndicator",
        28 => "issuingDistributionPoint",
        29 => "certificateIssuer",
        30 => "nameConstraints",
        31 => "cRLDistributionPoints",
        32 => "certificatePolicies",
        33 => "policyMappings",
        35 => "authorityKeyIdentifier",
        36 => "policyConstraints",
        37 => "extKeyUsage",
        46 => "freshestCRL",
        54 => "inhibitAnyPolicy",
        55 => "targetInformation",
        56 => "noRevAvail",
        _ => "",
    }
}

// Names algorithms of RSA (RFC 8017 A).
fn pkcs1_name(last: u8) -> &'static str {
    match last {
        1 => "rsaEncryption",
        2 => "md2WithRSAEncryption",
        4 => "md5WithRSAEncryption",
        5 => "sha1WithRSAEncryption",
        7 => "id-RSAES-OAEP",
        8 => "id-mgf1",
        10 => "id-RSASSA-PSS",
        11 => "sha256WithRSAEncryption",
        12 => "sha384WithRSAEncryption",
        13 => "sha512WithRSAEncryption",
        14 => "sha224WithRSAEncryption",
        15 => "sha512-224WithRSAEncryption",
        16 => "sha512-256WithRSAEncryption",
        _ => "",
    }
}

// Names algorithms that encrypt with a password (RFC 8018 A).
fn pkcs5_name(last: u8) -> &'static str {
    match last {
        1 => "pbeWithMD2AndDES-CBC",
        3 => "pbeWithMD5AndDES-CBC",
        4 => "pbeWithMD2AndRC2-CBC",
        6 => "pbeWithMD5AndRC2-CBC",
        10 => "pbeWithSHA1AndDES-CBC",
        11 => "pbeWithSHA1AndRC2-CBC",
        12 => "id-PBKDF2",
        13 => "id-PBES2",
        _ => "",
    }
}

// Names types of messages (RFC 5652 4 to 8).
fn pkcs7_name(last: u8) -> &'static str {
    match last {
        1 => "id-data",
        2 => "id-signedData",
        3 => "id-envelopedData",
        5 => "id-digestedData",
        6 => "id-encryptedData",
        _ => "",
    }
}

// Names attributes (RFC 2985 5, RFC 5652 11, RFC 8551 2.5.2).
fn pkcs9_name(last: u8) -> &'static str {
    match last {
        1 => "emailAddress",
        2 => "unstructuredName",
        3 => "contentType",
        4 => "messageDigest",
        5 => "signingTime",
        6 => "countersignature",
        7 => "challengePassword",
        8 => "unstructuredAddress",
        14 => "extensionRequest",
        15 => "smimeCapabilities",
        20 => "friendlyName",
        21 => "localKeyID",
        _ => "",
    }
}

// Names attributes of signatures (RFC 3161 A, RFC 5035 3, 4).
fn signature_attribute_name(last: u8) -> &'static str {
    match last {
        12 => "id-aa-signingCertificate",
        14 => "id-aa-timeStampToken",
        47 => "id-aa-signingCertificateV2",
        _ => "",
    }
}

// Names algorithms that encrypt with a password (RFC 7292 C).
fn pkcs12_name(last: u8) -> &'static str {
    match last {
        1 => "pbeWithSHAAnd128BitRC4",
        2 => "pbeWithSHAAnd40BitRC4",
        3 => "pbeWithSHAAnd3-KeyTripleDES-CBC",
        4 => "pbeWithSHAAnd2-KeyTripleDES-CBC",
        5 => "pbeWithSHAAnd128BitRC2-CBC",
        6 => "pbeWithSHAAnd40BitRC2-CBC",
        _ => "",
    }
}

// Names digests and HMACs (RFC 1319, RFC 1321, RFC 8018 B.1).
fn rsa_digest_name(last: u8) -> &'static str {
    match last {
        2 => "md2",
        5 => "md5",
        7 => "id-hmacWithSHA1",
        8 => "id-hmacWithSHA224",
        9 => "id-hmacWithSHA256",
        10 => "id-hmacWithSHA384",
        11 => "id-hmacWithSHA512",
        12 => "id-hmacWithSHA512-224",
        13 => "id-hmacWithSHA512-256",
        _ => "",
    }
}

// Names those below 1.2.840.113549.
fn rsa_name(front: &[u8], last: u8) -> &'static str {
    match (front, last) {
        ([1, 1], _) => pkcs1_name(last),
        ([1, 5], _) => pkcs5_name(last),
        ([1, 7], _) => pkcs7_name(last),
        ([1, 9], _) => pkcs9_name(last),
        ([1, 9, 16, 1], 4) => "id-ct-TSTInfo",
        ([1, 9, 16, 2], _) => signature_attribute_name(last),
        ([1, 12, 1], _) => pkcs12_name(last),
        ([2], _) => rsa_digest_name(last),
        ([3], 7) => "des-EDE3-CBC",
        _ => "",
    }
}

// Names curves over binary fields (ANSI X9.62).
fn x962_binary_name(last: u8) -> &'static str {
    match last {
        1 => "c2pnb163v1",
        2 => "c2pnb163v2",
        3 => "c2pnb163v3",
        4 => "c2pnb176v1",
        5 => "c2tnb191v1",
        6 => "c2tnb191v2",
        7 => "c2tnb191v3",
        10 => "c2pnb208w1",
        11 => "c2tnb239v1",
        12 => "c2tnb239v2",
        13 => "c2tnb239v3",
        16 => "c2pnb272w1",
        17 => "c2pnb304w1",
        18 => "c2tnb359v1",
        19 => "c2pnb368w1",
        20 => "c2tnb431r1",
        _ => "",
    }
}

// Names curves over prime fields (RFC 5480 2.1.1.1, ANSI X9.62).
fn x962_prime_name(last: u8) -> &'static str {
    match last {
        1 => "secp192r1",
        2 => "prime192v2",
        3 => "prime192v3",
        4 => "prime239v1",
        5 => "prime239v2",
        6 => "prime239v3",
        7 => "secp256r1",
        _ => "",
    }
}

// Names those below 1.2.840.10045.4.3.
fn ecdsa_sha2_name(last: u8) -> &'static str {
    match last {
        1 => "ecdsa-with-SHA224",
        2 => "ecdsa-with-SHA256",
        3 => "ecdsa-with-SHA384",
        4 => "ecdsa-with-SHA512",
        _ => "",
    }
}

// Names what is done with a certificate on hold (RFC 3280 5.3.2).
fn hold_name(last: u8) -> &'static str {
    match last {
        1 => "holdInstructionNone",
        2 => "holdInstructionCallIssuer",
        3 => "holdInstructionReject",
        _ => "",
    }
}

// Names curves (SEC 2).
fn sec_curve_name(last: u8) -> &'static str {
    match last {
        1 => "sect163k1",
        2 => "sect163r1",
        3 => "sect239k1",
        4 => "sect113r1",
        5 => "sect113r2",
        6 => "secp112r1",
        7 => "secp112r2",
        8 => "secp160r1",
        9 => "secp160k1",
        10 => "secp256k1",
        15 => "sect163r2",
        16 => "sect283k1",
        17 => "sect283r1",
        22 => "sect131r1",
        23 => "sect131r2",
        24 => "sect193r1",
        25 => "sect193r2",
        26 => "sect233k1",
        27 => "sect233r1",
        28 => "secp128r1",
        29 => "secp128r2",
        30 => "secp160r2",
        31 => "secp192k1",
        32 => "secp224k1",
        33 => "secp224r1",
        34 => "secp384r1",
        35 => "secp521r1",
        36 => "sect409k1",
        37 => "sect409r1",
        38 => "sect571k1",
        39 => "sect571r1",
        _ => "",
    }
}

// Names curves (RFC 5639).
fn brainpool_name(last: u8) -> &'static str {
    match last {
        1 => "brainpoolP160r1",
        2 => "brainpoolP160t1",
        3 => "brainpoolP192r1",
        4 => "brainpoolP192t1",
        5 => "brainpoolP224r1",
        6 => "brainpoolP224t1",
        7 => "brainpoolP256r1",
        8 => "brainpoolP256t1",
        9 => "brainpoolP320r1",
        10 => "brainpoolP320t1",
        11 => "brainpoolP384r1",
        12 => "brainpoolP384t1",
        13 => "brainpoolP512r1",
        14 => "brainpoolP512t1",
        _ => "",
    }
}

// Names curves (WAP-261-WTLS).
fn wap_name(last: u8) -> &'static str {
    match last {
        1 => "wap-wsg-idm-ecid-wtls1",
        3 => "wap-wsg-idm-ecid-wtls3",
        4 => "wap-wsg-idm-ecid-wtls4",
        5 => "wap-wsg-idm-ecid-wtls5",
        6 => "wap-wsg-idm-ecid-wtls6",
        7 => "wap-wsg-idm-ecid-wtls7",
        8 => "wap-wsg-idm-ecid-wtls8",
        9 => "wap-wsg-idm-ecid-wtls9",
        10 => "wap-wsg-idm-ecid-wtls10",
        11 => "wap-wsg-idm-ecid-wtls11",
        12 => "wap-wsg-idm-ecid-wtls12",
        _ => "",
    }
}

// Names those below 1.3.101.
fn edwards_name(last: u8) -> &'static str {
    match last {
        110 => "id-X25519",
        111 => "id-X448",
        112 => "id-Ed25519",
        113 => "id-Ed448",
        _ => "",
    }
}

// Names extensions (RFC 5280 4.2.2, RFC 3739, RFC 3779, RFC 3820, RFC 7633, RFC 8360).
fn pkix_extension_name(last: u8) -> &'static str {
    match last {
        1 => "authorityInfoAccess",
        2 => "biometricInfo",
        3 => "qcStatements",
        7 => "ipAddrBlocks",
        8 => "autonomousSysIds",
        11 => "subjectInfoAccess",
        14 => "proxyCertInfo",
        24 => "tlsFeature",
        28 => "ipAddrBlocks-v2",
        29 => "autonomousSysIds-v2",
        _ => "",
    }
}

// Names key purposes (RFC 5280 4.2.1.12, and the documents of each).
fn purpose_name(last: u8) -> &'static str {
    match last {
        1 => "serverAuth",
        2 => "clientAuth",
        3 => "codeSigning",
        4 => "emailProtection",
        5 => "ipsecEndSystem",
        6 => "ipsecTunnel",
        7 => "ipsecUser",
        8 => "timeStamping",
        9 => "OCSPSigning",
        10 => "dvcs",
        17 => "ipsecIKE",
        18 => "capwapAC",
        19 => "capwapWTP",
        21 => "sshClient",
        22 => "sshServer",
        23 => "sendRouter",
        24 => "sendProxiedRouter",
        25 => "sendOwner",
        26 => "sendProxiedOwner",
        27 => "cmcCA",
        28 => "cmcRA",
        29 => "cmcArchive",
        30 => "bgpsec-router",
        31 => "BrandIndicatorforMessageIdentification",
        32 => "cmKGA",
        _ => "",
    }
}

// Names other names (RFC 4043, RFC 4985, RFC 6120, RFC 7585, RFC 9598).
fn other_name_name(last: u8) -> &'static str {
    match last {
        3 => "permanentIdentifier",
        5 => "xmppAddr",
        7 => "dnsSRV",
        8 => "NAIRealm",
        9 => "smtpUTF8Mailbox",
        _ => "",
    }
}

// Names ways of access (RFC 5280 4.2.2, RFC 6487, RFC 8182).
fn access_name(last: u8) -> &'static str {
    match last {
        1 => "ocsp",
        2 => "caIssuers",
        3 => "ad-timeStamping",
        4 => "ad-dvcs",
        5 => "caRepository",
        10 => "rpkiManifest",
        11 => "signedObject",
        13 => "rpkiNotify",
        _ => "",
    }
}

// Names the basic response of OCSP, and extensions (RFC 6960 4.2.1, 4.2.2.2.1, 4.4).
fn ocsp_name(last: u8) -> &'static str {
    match last {
        1 => "id-pkix-ocsp-basic",
        2 => "id-pkix-ocsp-nonce",
        3 => "id-pkix-ocsp-crl",
        4 => "id-pkix-ocsp-response",
        5 => "noCheck",
        6 => "id-pkix-ocsp-archive-cutoff",
        7 => "id-pkix-ocsp-service-locator",
        _ => "",
    }
}

// Names certificate transparency (RFC 6962 3.1, 3.3).
fn ct_name(last: u8) -> &'static str {
    match last {
        2 => "signedCertificateTimestampList",
        3 => "ctPoison",
        4 => "ctPrecertificateSigner",
        _ => "",
    }
}

// Names those below 1.3.6.1.4.1.311.2.1.
fn ms_code_name(last: u8) -> &'static str {
    match last {
        14 => "msExtReq",
        21 => "msCodeInd",
        22 => "msCodeCom",
        _ => "",
    }
}

// Names those below 1.3.6.1.4.1.311.10.3.
fn ms_purpose_name(last: u8) -> &'static str {
    match last {
        1 => "msCTLSign",
        3 => "msSGC",
        4 => "msEFS",
        _ => "",
    }
}

// Names those below 1.3.6.1.4.1.311.60.2.1.
fn jurisdiction_name(last: u8) -> &'static str {
    match last {
        1 => "jurisdictionLocality",
        2 => "jurisdictionStateOrProvince",
        3 => "jurisdictionCountry",
        _ => "",
    }
}

// Names ciphers (RFC 3565 4.1, RFC 5084 3.2).
fn aes_name(last: u8) -> &'static str {
    match last {
        2 => "id-aes128-CBC",
        6 => "id-aes128-GCM",
        22 => "id-aes192-CBC",
        26 => "id-aes192-GCM",
        42 => "id-aes256-CBC",
        46 => "id-aes256-GCM",
        _ => "",
    }
}

// Names digests (RFC 5754 2, FIPS 202).
fn nist_digest_name(last: u8) -> &'static str {
    match last {
        1 => "id-sha256",
        2 => "id-sha384",
        3 => "id-sha512",
        4 => "id-sha224",
        5 => "id-sha512-224",
        6 => "id-sha512-256",
        7 => "id-sha3-224",
        8 => "id-sha3-256",
        9 => "id-sha3-384",
        10 => "id-sha3-512",
        11 => "id-shake128",
        12 => "id-shake256",
        _ => "",
    }
}

// Names signatures (RFC 5758, RFC 9688).
fn nist_signature_name(last: u8) -> &'static str {
    match last {
        1 => "id-dsa-with-sha224",
        2 => "id-dsa-with-sha256",
        3 => "id-dsa-with-sha384",
        4 => "id-dsa-with-sha512",
        5 => "id-dsa-with-sha3-224",
        6 => "id-dsa-with-sha3-256",
        7 => "id-dsa-with-sha3-384",
        8 => "id-dsa-with-sha3-512",
        9 => "id-ecdsa-with-sha3-224",
        10 => "id-ecdsa-with-sha3-256",
        11 => "id-ecdsa-with-sha3-384",
        12 => "id-ecdsa-with-sha3-512",
        13 => "id-rsassa-pkcs1-v1_5-with-sha3-224",
        14 => "id-rsassa-pkcs1-v1_5-with-sha3-256",
        15 => "id-rsassa-pkcs1-v1_5-with-sha3-384",
        16 => "id-rsassa-pkcs1-v1_5-with-sha3-512",
        _ => "",
    }
}

// Names extensions of Netscape.
fn netscape_name(last: u8) -> &'static str {
    match last {
        1 => "nsCertType",
        2 => "nsBaseUrl",
        3 => "nsRevocationUrl",
        4 => "nsCaRevocationUrl",
        7 => "nsRenewalUrl",
        8 => "nsCaPolicyUrl",
        12 => "nsSslServerName",
        13 => "nsComment",
        _ => "",
    }
}

// Names attributes (RFC 4519 2, RFC 4524 2).
fn pilot_name(last: u8) -> &'static str {
    match last {
        1 => "userId",
        3 => "rfc822Mailbox",
        25 => "domainComponent",
        44 => "uniqueIdentifier",
        _ => "",
    }
}

// Names those below 1.2.643.100.
fn gost_name(last: u8) -> &'static str {
    match last {
        1 => "OGRN",
        3 => "SNILS",
        5 => "OGRNIP",
        _ => "",
    }
}

// Names those below 1.2.
fn below_members(front: &[u8], last: u8) -> &'static str {
    match (front, last) {
        ([0x86, 72, 0x86, 0xf7, 13, rest @ ..], _) => rsa_name(rest, last),
        ([0x86, 72, 0xce, 61, 2], 1) => "id-ecPublicKey",
        ([0x86, 72, 0xce, 61, 3, 0], _) => x962_binary_name(last),
        ([0x86, 72, 0xce, 61, 3, 1], _) => x962_prime_name(last),
        ([0x86, 72, 0xce, 61, 4], 1) => "ecdsa-with-SHA1",
        ([0x86, 72, 0xce, 61, 4, 3], _) => ecdsa_sha2_name(last),
        ([0x86, 72, 0xce, 56, 2], _) => hold_name(last),
        ([0x86, 72, 0xce, 56, 4], 1) => "id-dsa",
        ([0x86, 72, 0xce, 56, 4], 3) => "id-dsa-with-sha1",
        ([0x85, 3, 3, 0x81, 3, 1], 1) => "INN",
        ([0x85, 3, 100], _) => gost_name(last),
        ([0x81, 28, 0xcf, 85, 1, 0x82], 45) => "sm2",
        ([0x81, 28, 0xcf, 85, 1, 0x83], 17) => "sm3",
        ([0x81, 28, 0xcf, 85, 1, 0x83], 117) => "SM2-with-SM3",
        ([0x81, 28, 0xcf, 85, 1, 0x83], 120) => "sm3WithRSAEncryption",
        _ => "",
    }
}

// Names those below 1.3.
fn below_organizations(front: &[u8], last: u8) -> &'static str {
    match (front, last) {
        ([0x81, 4, 0], _) => sec_curve_name(last),
        ([36, 3, 3, 2, 8, 1, 1], _) => brainpool_name(last),
        ([101], _) => edwards_name(last),
        ([14, 3, 2], 26) => "id-sha1",
        ([14, 3, 2], 29) => "sha1WithRSA",
        ([36, 3, 2], 1) => "ripemd160",
        ([36, 3, 3, 1], 2) => "ripemd160WithRSA",
        ([36, 8, 3], 3) => "admissions",
        ([6, 1, 5, 5, 7, 1], _) => pkix_extension_name(last),
        ([6, 1, 5, 5, 7, 2], 1) => "cps",
        ([6, 1, 5, 5, 7, 2], 2) => "unotice",
        ([6, 1, 5, 5, 7, 3], _) => purpose_name(last),
        ([6, 1, 5, 5, 7, 8], _) => other_name_name(last),
        ([6, 1, 5, 5, 7, 48], _) => access_name(last),
        ([6, 1, 5, 5, 7, 48, 1], _) => ocsp_name(last),
        ([6, 1, 5, 2, 3], 4) => "pkInitClientAuth",
        ([6, 1, 5, 2, 3], 5) => "pkInitKDC",
        ([6, 1, 4, 1, 0xd6, 121, 2, 4], _) => ct_name(last),
        ([6, 1, 4, 1, 0xda, 71, 4], 11) => "id-scrypt",
        ([6, 1, 4, 1, 0x82, 55, 2, 1], _) => ms_code_name(last),
        ([6, 1, 4, 1, 0x82, 55, 10, 3], _) => ms_purpose_name(last),
        ([6, 1, 4, 1, 0x82, 55, 20], 2) => "enrollCertType",
        ([6, 1, 4, 1, 0x82, 55, 20, 2], 2) => "msSmartcardLogin",
        ([6, 1, 4, 1, 0x82, 55, 20, 2], 3) => "userPrincipalName",
        ([6, 1, 4, 1, 0x82, 55, 21], 7) => "msCertificateTemplate",
        ([6, 1, 4, 1, 0x82, 55, 60, 2, 1], _) => jurisdiction_name(last),
        _ => "",
    }
}

// Names those below 2.16.
fn below_countries(front: &[u8], last: u8) -> &'static str {
    match (front, last) {
        ([0x86, 72, 1, 101, 3, 4, 1], _) => aes_name(last),
        ([0x86, 72, 1, 101, 3, 4, 2], _) => nist_digest_name(last),
        ([0x86, 72, 1, 101, 3, 4, 3], _) => nist_signature_name(last),
        ([0x86, 72, 1, 0x86, 0xf8, 66, 1], _) => netscape_name(last),
        ([0x86, 72, 1, 0x86, 0xf8, 66, 4], 1) => "nsSGC",
        _ => "",
    }
}

// Names the others.
fn other_name_of(front: &[u8], last: u8) -> &'static str {
    match (front, last) {
        ([103, 43, 1, 4], _) => wap_name(last),
        ([9, 0x92, 38, 0x89, 0x93, 0xf2, 44, 100, 1], _) => pilot_name(last),
        _ => "",
    }
}

/// Returns the name of an identifier of these bytes, if it is well known.
pub fn known_name(octets: &[u8]) -> Option<&'static str> {
    let [front @ .., last] = octets else {
        return None;
    };
    let name = match front {
        [0x55, 4] => attribute_name(*last),
        [0x55, 29] => extension_name(*last),
        [0x55, 29, 32] if *last == 0 => "anyPolicy",
        [0x55, 29, 37] if *last == 0 => "anyExtendedKeyUsage",
        [0x2a, rest @ ..] => below_members(rest, *last),
        [0x2b, rest @ ..] => below_organizations(rest, *last),
        [0x60, rest @ ..] => below_countries(rest, *last),
        _ => other_name_of(front, *last),
    };
    if name.is_empty() { None } else { Some(name) }
}

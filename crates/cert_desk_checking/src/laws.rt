//! Laws about chains and files of trust anchors. Each function does nothing: its contract is the
//! law.
ghost use Rattle.cert_desk_checking.specs.ChainParts.{HasFewQuestions, HasTrustedFronts};
ghost use Rattle.cert_desk_checking.specs.ChainParts.{HasTrustedRests, IgnoresStrangers};
ghost use Rattle.cert_desk_checking.specs.ChainParts.{HasNothingOutside, HasOneStream};
ghost use Rattle.cert_desk_checking.specs.Laws.{HasOneSeries, HasOneSeriesFault, HasOneChain};
ghost use Rattle.cert_desk_checking.specs.Laws.{FaultHasNoChain, HasOneFault, FaultStays};
ghost use Rattle.cert_desk_checking.specs.Laws.{HasOneVerdict, HasOneAnchorFile, IsJudgedAlike};
ghost use Rattle.cert_desk_checking.specs.Laws.{IsJudgedByLines, QuestionsAreListed};
ghost use Rattle.cert_desk_checking.specs.Laws.{RefusedAtFirstBreach, TrustedWithoutBreach};
ghost use Rattle.cert_desk_checking.specs.WiderBounds.{WiderKeepsChains, NewChainsHoldLarge};
ghost use Rattle.cert_desk_checking.specs.WiderBounds.{WiderKeepsTrust, WiderKeepsVerdicts};
ghost use Rattle.cert_desk_checking.specs.WiderBounds.{WiderKeepsFaults};

/// No input is the concatenation of two different lists of values of an unambiguous type whose
/// values have headers. Certificates are such values, and so are trust anchors.
pub fn one_series()
    ensures { HasOneSeries }
{}

/// No input of values of an unambiguous type has two errors.
pub fn one_series_fault()
    ensures { HasOneSeriesFault }
{}

/// No input is the concatenation of two different lists of certificates.
pub fn one_chain()
    ensures { HasOneChain }
{}

/// An input with an error isn't the concatenation of any list of certificates.
pub fn no_chain_with_a_fault()
    ensures { FaultHasNoChain }
{}

/// No input has two errors.
pub fn one_fault()
    ensures { HasOneFault }
{}

/// An error of an input is also the error of every longer input, unless the input only ends inside
/// a certificate.
pub fn fault_stays()
    ensures { FaultStays }
{}

/// No input has two verdicts under the same terms.
pub fn one_verdict()
    ensures { HasOneVerdict }
{}

/// The verdict on a chain is the first rule that is broken at the first certificate that breaks
/// one. If no certificate breaks a rule, the chain is trusted.
pub fn first_breach_is_the_verdict()
    ensures refused { RefusedAtFirstBreach }
    ensures trusted { TrustedWithoutBreach }
{}

/// No file of trust anchors has two lists of trust anchors, or two first errors, or both.
pub fn one_anchor_file()
    ensures { HasOneAnchorFile }
{}

/// Verifiers that give the same answers to the questions that a chain may ask give the same
/// verdict, and are asked as often.
///
/// For its first certificate, a chain may ask about the key of each anchor with the issuer's name,
/// and for each other one about the key of the certificate before. So the verdict with a list of
/// answers is the verdict with the verifier that gave them, whatever it answers elsewhere.
pub fn judged_alike()
    ensures { IsJudgedAlike }
{}

/// `chain_lines` lists exactly the questions that the signatures of a chain may ask, a line for
/// each. So verifiers that give the same answers to these lines give the same verdict, and are
/// asked as often.
pub fn questions_are_listed()
    ensures listed { QuestionsAreListed }
    ensures judged { IsJudgedByLines }
{}

/// The verifier is asked at most once for each certificate after the first, and once for each
/// anchor with the name of the first one's issuer.
pub fn few_questions()
    ensures { HasFewQuestions }
{}

/// Trust anchors with other names than the first certificate's issuer change neither the verdict
/// nor how often the verifier is asked.
pub fn strangers_are_ignored()
    ensures { IgnoresStrangers }
{}

/// Every byte of a chain is checked: two chains that agree in the signed bytes, the outer algorithm
/// and the signature of each certificate are the same bytes.
pub fn nothing_is_outside()
    ensures { HasNothingOutside }
{}

/// Equal certificates, with equal forms of dates, have one concatenation.
pub fn one_stream()
    ensures { HasOneStream }
{}

/// Each nonempty prefix of a trusted chain is trusted.
pub fn fronts_are_trusted()
    ensures { HasTrustedFronts }
{}

/// Each nonempty suffix of a trusted chain is trusted, if the certificate before it is the only
/// trust anchor.
pub fn rests_are_trusted()
    ensures { HasTrustedRests }
{}

/// A chain is the same chain under a larger bound of arcs. A chain only under the larger bound has
/// a certificate with an arc that isn't below the smaller one.
pub fn wider_bounds_keep_chains()
    ensures kept { WiderKeepsChains }
    ensures new { NewChainsHoldLarge }
{}

/// A trusted input is trusted under a larger bound of arcs, with as many questions.
pub fn wider_bounds_keep_trust()
    ensures { WiderKeepsTrust }
{}

/// A chain has the same verdict under a larger bound of arcs, with as many questions, unless the
/// content of a decoded extension is accepted only there. It then contains an arc that isn't below
/// the smaller bound.
pub fn wider_bounds_keep_verdicts()
    ensures { WiderKeepsVerdicts }
{}

/// An input has the same error under a larger bound of arcs, unless it has a certificate there
/// under that bound, which then contains an arc that isn't below the smaller one.
pub fn wider_bounds_keep_faults()
    ensures { WiderKeepsFaults }
{}

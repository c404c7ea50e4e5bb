//! Laws of certificates: each function takes and answers nothing, and its clauses are the law.

ghost use Rattle.order_proof.specs.Laws.{ValidMeansBefore, HasOneCertificate, CertificatesStay, CertificatesOfParts};
ghost use Rattle.order_proof.specs.Laws.{CertificatesInParts, ReadsUniquely, ValidReadsUniquely};

/// In every lawful history a valid certificate's first step names two elements of which the first stands before the
/// second.
pub fn valid_means_before()
    ensures { ValidMeansBefore }
{}

/// In every lawful history there is exactly one valid certificate for two elements of which the first stands before the
/// second.
pub fn has_one_certificate()
    ensures { HasOneCertificate }
{}

/// A valid certificate stays valid as the history grows.
pub fn certificates_stay()
    ensures later { CertificatesStay }
    ensures parts { CertificatesOfParts }
    ensures in_parts { CertificatesInParts }
{}

/// A text is that of one certificate at most, but for the chains that steps by `Prefix` leave out; of valid ones they
/// are empty.
pub fn text_reads_uniquely()
    ensures any { ReadsUniquely }
    ensures valid { ValidReadsUniquely }
{}

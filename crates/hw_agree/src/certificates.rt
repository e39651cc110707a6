//! Certificates: few vertices that show that a block is final, and what is owed where they mislead.
//!
//! Who takes the vertices of a certificate decides its block. Vertices of a journal that come in turn, with
//! the latest units of a summit's first committee among them, are a certificate of the summit's block.

ghost use Rattle.hw_agree.specs.CertificateLaws.{CertifiedIsDecided, CertificateIsAccountable, EnoughIsEnough, ExtractCertifies};

/// A node that takes the vertices of a certificate decides its block. Another node that decided another
/// block of that height is in a conflict with it whose culprits weigh more than the threshold, or a unit
/// of the one and a unit of the other differ and have one digest.
pub fn a_certificate_is_accountable()
    ensures decided { CertifiedIsDecided }
    ensures accountable { CertificateIsAccountable }
{}

/// What the latest units of a summit's first committee stand on, with evidence for each mark in it and the
/// endorsements that it relies on, is enough for the summit; and as vertices in turn it is a certificate.
pub fn a_part_is_enough()
    ensures enough { EnoughIsEnough }
    ensures certifies { ExtractCertifies }
{}

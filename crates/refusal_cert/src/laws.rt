//! What holds of every certificate.
ghost use Rattle.refusal_cert.specs.Laws.{FourSuffice};

/// A law: an axis admits an arc exactly where it admits each three and each four of its detections.
/// It does nothing: its contract is the law.
pub fn four_suffice()
    ensures { FourSuffice }
{}

//! Laws of fields.
ghost use Rattle.bits.specs.Laws.{BitsGiveValue, ValueGivesBits, BitsGiveBytes, BytesHoldBits};

/// Carries the laws: a field's value and its bits determine each other, and so do bytes and their bits,
/// also where bits are packed into bytes and the last one is filled with zeros.
#[tactic(auto, using(crate::proofs::Filling::field_laws))]
pub fn field_laws()
    ensures value { BitsGiveValue }
    ensures bits { ValueGivesBits }
    ensures bytes { BitsGiveBytes }
    ensures packed { BytesHoldBits }
{}

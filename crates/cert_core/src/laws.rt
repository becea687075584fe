//! How the parts of a certificate make the whole: functions that do nothing and carry laws.

ghost use Rattle.cert_core.specs.Composing.{PartsAreEntry, EntriesJoin, HeadAndEntries, ShownIsRead, ReadIsCert, CertHasHead, CertIsRead, ReadMore, NextIsRead, NothingFollows, ShownIsLeast, OneReason, ByteWidthIsLeast};

/// The parts that a writer writes, in order, are the text of the certificate.
pub fn parts_join()
    ensures entry { PartsAreEntry }
    ensures entries { EntriesJoin }
    ensures whole { HeadAndEntries }
{}

/// An entry with a valid table is read as one, whatever follows.
pub fn shown_is_read()
    ensures { ShownIsRead }
{}

/// A header, then for each claim an entry that shows it, and then nothing: exactly these are the certificates.
pub fn read_is_cert()
    ensures read { ReadIsCert }
    ensures head { CertHasHead }
    ensures only { CertIsRead }
    ensures more { ReadMore }
{}

/// If entries were read for the first claims, the next bytes of a certificate are the entry of the next claim. After
/// all claims no bytes are left.
pub fn cert_goes_on()
    ensures next { NextIsRead }
    ensures end { NothingFollows }
{}

/// Bits that an entry shows to cost least do cost least.
pub fn shown_is_least()
    ensures { ShownIsLeast }
{}

/// Bytes have at most one first reason, so they determine the answer of a rejection.
pub fn one_reason()
    ensures { OneReason }
{}

/// The width in which a row spells its excesses is the least that holds the greatest of them.
pub fn byte_width_is_least()
    ensures { ByteWidthIsLeast }
{}

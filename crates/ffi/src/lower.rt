// The calls below the session: hash, HMAC and HKDF by the number of a suite. Each writes to the front of out.
ghost use Rattle.std.specs.Prelude.{length};
ghost use Rattle.suite_hash.specs.Hash.{hash, hash_number};
ghost use Rattle.hmac.specs.Rfc2104.{hmac};
ghost use Rattle.hkdf.specs.Rfc5869.{extract, expand};
ghost use Rattle.hkdf.specs.Rfc8446.{expand_label, derive_secret};
ghost use Rattle.hkdf.specs.Refusals.{mac_number, expand_number, expand_label_number, derive_secret_number};
ghost use Rattle.refusal.specs.Reported.{Reported};

use super::report::report;

#[unsafe(no_mangle)]
#[tactic(auto, using(crate::proofs::Calls::reported))]
pub extern "C" fn bindcricket_hash(
    suite: u16,
    input: &[u8],
    out: &mut [u8],
    written: &mut usize,
) -> u8
    ensures { Reported (hash_number suite (length input.now) (length out.old)) (hash suite input.now) out.old result written.new out.new }
{
    report(oneshot::hash(suite, input, out), written)
}

#[unsafe(no_mangle)]
#[tactic(auto, using(crate::proofs::Calls::reported))]
pub extern "C" fn bindcricket_hmac(
    suite: u16,
    key: &[u8],
    message: &[u8],
    out: &mut [u8],
    written: &mut usize,
) -> u8
    ensures { Reported (mac_number suite (length key.now) (length message.now) (length out.old)) (hmac suite key.now message.now) out.old result written.new out.new }
{
    report(extract::hmac(suite, key, message, out), written)
}

#[unsafe(no_mangle)]
#[tactic(auto, using(crate::proofs::Calls::reported))]
pub extern "C" fn bindcricket_extract(
    suite: u16,
    salt: &[u8],
    input: &[u8],
    out: &mut [u8],
    written: &mut usize,
) -> u8
    ensures { Reported (mac_number suite (length salt.now) (length input.now) (length out.old)) (extract suite salt.now input.now) out.old result written.new out.new }
{
    report(extract::extract(suite, salt, input, out), written)
}

#[unsafe(no_mangle)]
#[tactic(auto, using(crate::proofs::Calls::reported))]
pub extern "C" fn bindcricket_expand(
    suite: u16,
    secret: &[u8],
    info: &[u8],
    asked: usize,
    out: &mut [u8],
    written: &mut usize,
) -> u8
    ensures { Reported (expand_number suite (length secret.now) (length info.now) asked (length out.old)) (expand suite secret.now info.now asked) out.old result written.new out.new }
{
    report(
        hkdf::expand::expand(suite, secret, info, asked, out),
        written,
    )
}

#[unsafe(no_mangle)]
#[tactic(auto, using(crate::proofs::Calls::reported))]
pub extern "C" fn bindcricket_expand_label(
    suite: u16,
    secret: &[u8],
    label: &[u8],
    context: &[u8],
    asked: usize,
    out: &mut [u8],
    written: &mut usize,
) -> u8
    ensures { Reported (expand_label_number suite (length secret.now) (length label.now) (length context.now) asked (length out.old)) (expand_label suite secret.now label.now context.now asked) out.old result written.new out.new }
{
    report(
        hkdf::label::expand_label(suite, secret, label, context, asked, out),
        written,
    )
}

#[unsafe(no_mangle)]
#[tactic(auto, using(crate::proofs::Calls::reported))]
pub extern "C" fn bindcricket_derive_secret(
    suite: u16,
    secret: &[u8],
    label: &[u8],
    messages: &[u8],
    out: &mut [u8],
    written: &mut usize,
) -> u8
    ensures { Reported (derive_secret_number suite (length secret.now) (length label.now) (length messages.now) (length out.old)) (derive_secret suite secret.now label.now messages.now) out.old result written.new out.new }
{
    report(
        hkdf::label::derive_secret(suite, secret, label, messages, out),
        written,
    )
}

// The C interface: include/dialtable.h says what each call does. Each is a call of the crates below, with its answer as one
// number.
#![tactic(auto)]

ghost use Rattle.std.specs.Prelude.{◌≡◌, not, eqb, length};
ghost use Rattle.place.specs.Written.{bytes_answer, bytes_after};
ghost use Rattle.av_pairs.specs.AvPairs.{check_pairs, count_pairs, ask_at};
ghost use Rattle.target_info.specs.TargetInfo.{find_pair};
ghost use Rattle.read_authenticate.specs.Authenticate.{read_authenticate};
ghost use Rattle.batch.specs.Batch.{buffer_verdict, filled};
ghost use Rattle.write_authenticate.specs.Writing.{write_answer, write_out};
ghost use Rattle.read_challenge.specs.Challenge.{read_challenge, timestamp_of, server_names_of};
ghost use Rattle.read_negotiate.specs.Negotiate.{read_negotiate};
ghost use Rattle.write_negotiate.specs.Writing.{write_answer as negotiate_answer, write_out as negotiate_out};
ghost use Rattle.read_nl_auth.specs.NlAuth.{read_nl_auth};
ghost use Rattle.nl_auth_flags.specs.Flags.{known};
ghost use Rattle.line_nl_string.specs.StringText.{text_answer, text_after};
ghost use Rattle.write_nl_auth.specs.Writing.{request_answer, request_out, response_answer, response_out};
ghost use Rattle.http_header_line.specs.HttpHeader.{export_answer, export_out, import_answer, import_out};
ghost use Rattle.explain.specs.Explain.{explanation};
ghost use Rattle.line.specs.Line.{negotiate_line, authenticate_line, challenge_line, nl_auth_line, ntlm_line, shown_line};
ghost use Rattle.respond.specs.Answer.{supplied};
ghost use Rattle.respond.specs.Decision.{defaults, bench_settings, old_server_settings, decision_on};
ghost use Rattle.respond.specs.Domain.{domain_to_send};
ghost use Rattle.write_response_pairs.specs.ResponsePairs.{write_answer as pairs_answer, write_out as pairs_out};
ghost use Rattle.write_canonical.specs.Canonical.{canonical_answer, canonical_out};
ghost use Rattle.c_number.specs.Number.{verdict_number, written_number};
ghost use Rattle.c_number.specs.Outcome.{call_number, call_out, two_array_number, two_array_out, two_array_bytes};
ghost use Rattle.c_read.specs.FieldCopy.{field_copy_answer, field_copy_out};
ghost use Rattle.c_read.specs.Numbers.{negotiate_outcome, authenticate_outcome_of, challenge_outcome_of, timestamp_outcome, server_names_outcome, nl_auth_outcome};
ghost use Rattle.c_mic.specs.Numbers.{mic_outcome, checking_number};
ghost use Rattle.mic.specs.Mic.{computed_mic, check_mic};
ghost use Rattle.c_pairs.specs.Pairs.{count_outcome, search_outcome, asked_outcome};
ghost use Rattle.c_respond.specs.Settings.{settings_of};
ghost use Rattle.c_respond.specs.Respond.{decided_outcome, RespondsFromC};

use batch::Entry;
use c_number::{copy, line_number, verdict_number, written_number};
use c_respond::settings::SettingsBits;
use negotiate_flags::NegotiateFlags;
use nl_auth_flags::NlAuthFlags;
use respond::domain::domain_to_send;
use write_authenticate::{Parts, write};
use write_nl_auth::{write_request, write_response};

#[unsafe(no_mangle)]
pub extern "C" fn dialtable_read_negotiate(msg: &[u8], numbers: &mut [u64]) -> u64
    ensures answer { result ≡ call_number 7 (negotiate_outcome (read_negotiate msg.now)) (length numbers.old) }
    ensures content { numbers.new ≡ call_out 7 (negotiate_outcome (read_negotiate msg.now)) numbers.old }
{
    c_read::read_negotiate(msg, numbers)
}

#[unsafe(no_mangle)]
pub extern "C" fn dialtable_read_authenticate(
    msg: &[u8],
    numbers: &mut [u64],
    mic: &mut [u8],
) -> u64
    ensures answer { result ≡ two_array_number 20 16 (authenticate_outcome_of msg.now) (length numbers.old) (length mic.old) }
    ensures content { numbers.new ≡ two_array_out 20 16 (authenticate_outcome_of msg.now) numbers.old (length mic.old) }
    ensures beside { mic.new ≡ two_array_bytes 20 16 (authenticate_outcome_of msg.now)
        (read_authenticate msg.now).mic (length numbers.old) mic.old }
{
    c_read::read_authenticate(msg, numbers, mic)
}

#[unsafe(no_mangle)]
pub extern "C" fn dialtable_read_challenge(msg: &[u8], numbers: &mut [u64], out: &mut [u8]) -> u64
    ensures answer { result ≡ two_array_number 7 8 (challenge_outcome_of msg.now) (length numbers.old) (length out.old) }
    ensures content { numbers.new ≡ two_array_out 7 8 (challenge_outcome_of msg.now) numbers.old (length out.old) }
    ensures beside { out.new ≡ two_array_bytes 7 8 (challenge_outcome_of msg.now)
        (read_challenge msg.now).server_challenge (length numbers.old) out.old }
{
    c_read::read_challenge(msg, numbers, out)
}

#[unsafe(no_mangle)]
pub extern "C" fn dialtable_read_timestamp(msg: &[u8], numbers: &mut [u64]) -> u64
    ensures answer { result ≡ call_number 2 (timestamp_outcome (timestamp_of msg.now)) (length numbers.old) }
    ensures content { numbers.new ≡ call_out 2 (timestamp_outcome (timestamp_of msg.now)) numbers.old }
{
    c_read::read_timestamp(msg, numbers)
}

#[unsafe(no_mangle)]
pub extern "C" fn dialtable_read_server_names(msg: &[u8], numbers: &mut [u64]) -> u64
    ensures answer { result ≡ call_number 2 (server_names_outcome (server_names_of msg.now)) (length numbers.old) }
    ensures content { numbers.new ≡ call_out 2 (server_names_outcome (server_names_of msg.now)) numbers.old }
{
    c_read::read_server_names(msg, numbers)
}

#[unsafe(no_mangle)]
pub extern "C" fn dialtable_read_nl_auth(msg: &[u8], numbers: &mut [u64]) -> u64
    ensures answer { result ≡ call_number 15 (nl_auth_outcome (read_nl_auth msg.now)) (length numbers.old) }
    ensures content { numbers.new ≡ call_out 15 (nl_auth_outcome (read_nl_auth msg.now)) numbers.old }
{
    c_read::read_nl_auth(msg, numbers)
}

#[unsafe(no_mangle)]
pub extern "C" fn dialtable_count_pairs(list: &[u8], numbers: &mut [u64]) -> u64
    ensures answer { result ≡ call_number 1 (count_outcome (count_pairs list.now)) (length numbers.old) }
    ensures content { numbers.new ≡ call_out 1 (count_outcome (count_pairs list.now)) numbers.old }
{
    c_pairs::count_pairs(list, numbers)
}

#[unsafe(no_mangle)]
pub extern "C" fn dialtable_find_pair(list: &[u8], id: u16, numbers: &mut [u64]) -> u64
    ensures answer { result ≡ call_number 3 (search_outcome (find_pair (record { id = id }) list.now)) (length numbers.old) }
    ensures content { numbers.new ≡ call_out 3 (search_outcome (find_pair (record { id = id }) list.now)) numbers.old }
{
    c_pairs::find_pair(list, id, numbers)
}

#[unsafe(no_mangle)]
pub extern "C" fn dialtable_next_pair(list: &[u8], at: usize, numbers: &mut [u64]) -> u64
    ensures answer { result ≡ call_number 5 (asked_outcome (ask_at list.now at)) (length numbers.old) }
    ensures content { numbers.new ≡ call_out 5 (asked_outcome (ask_at list.now at)) numbers.old }
{
    c_pairs::next_pair(list, at, numbers)
}

#[unsafe(no_mangle)]
pub extern "C" fn dialtable_decide(settings: u32, challenge: &[u8], numbers: &mut [u64]) -> u64
    ensures answer { result ≡ call_number 3 (decided_outcome (decision_on (settings_of settings) challenge.now)) (length numbers.old) }
    ensures content { numbers.new ≡ call_out 3 (decided_outcome (decision_on (settings_of settings) challenge.now)) numbers.old }
{
    c_respond::decide(settings, challenge, numbers)
}

#[unsafe(no_mangle)]
pub extern "C" fn dialtable_respond<'a>(
    out: &mut [u8],
    challenge: &'a [u8],
    settings: u32,
    clock: u64,
    version: &[u8; 8],
    mic: &[u8; 16],
    lm: &[u8],
    nt: &[u8],
    domain: &'a [u8],
    user: &[u8],
    workstation: &[u8],
    key: &[u8],
    numbers: &mut [u64],
) -> u64
    ensures { RespondsFromC (settings_of settings) challenge.now
        (supplied out.old clock version.now mic.now lm.now nt.now domain.now user.now workstation.now key.now)
        result out.new numbers.old numbers.new }
{
    let parts = Parts {
        version,
        mic,
        lm,
        nt,
        domain,
        user,
        workstation,
        key,
    };
    c_respond::respond(out, challenge, settings, clock, &parts, numbers)
}

#[unsafe(no_mangle)]
pub extern "C" fn dialtable_respond_for_bench<'a>(
    out: &mut [u8],
    challenge: &'a [u8],
    clock: u64,
    demand_128: u32,
    version: &[u8; 8],
    mic: &[u8; 16],
    lm: &[u8],
    nt: &[u8],
    domain: &'a [u8],
    user: &[u8],
    workstation: &[u8],
    key: &[u8],
    numbers: &mut [u64],
) -> u64
    ensures { RespondsFromC (bench_settings (not (eqb demand_128 0))) challenge.now
        (supplied out.old clock version.now mic.now lm.now nt.now domain.now user.now workstation.now key.now)
        result out.new numbers.old numbers.new }
{
    let parts = Parts {
        version,
        mic,
        lm,
        nt,
        domain,
        user,
        workstation,
        key,
    };
    c_respond::respond(
        out,
        challenge,
        SettingsBits::for_bench(demand_128).bits,
        clock,
        &parts,
        numbers,
    )
}

#[unsafe(no_mangle)]
pub extern "C" fn dialtable_respond_to_old_server<'a>(
    out: &mut [u8],
    challenge: &'a [u8],
    clock: u64,
    version: &[u8; 8],
    mic: &[u8; 16],
    lm: &[u8],
    nt: &[u8],
    domain: &'a [u8],
    user: &[u8],
    workstation: &[u8],
    key: &[u8],
    numbers: &mut [u64],
) -> u64
    ensures { RespondsFromC old_server_settings challenge.now
        (supplied out.old clock version.now mic.now lm.now nt.now domain.now user.now workstation.now key.now)
        result out.new numbers.old numbers.new }
{
    let parts = Parts {
        version,
        mic,
        lm,
        nt,
        domain,
        user,
        workstation,
        key,
    };
    c_respond::respond(
        out,
        challenge,
        SettingsBits::OLD_SERVER,
        clock,
        &parts,
        numbers,
    )
}

#[unsafe(no_mangle)]
pub extern "C" fn dialtable_respond_for_relay<'a>(
    out: &mut [u8],
    challenge: &'a [u8],
    clock: u64,
    version: &[u8; 8],
    mic: &[u8; 16],
    lm: &[u8],
    nt: &[u8],
    domain: &'a [u8],
    user: &[u8],
    workstation: &[u8],
    key: &[u8],
    numbers: &mut [u64],
) -> u64
    ensures { RespondsFromC defaults challenge.now
        (supplied out.old clock version.now mic.now lm.now nt.now domain.now user.now workstation.now key.now)
        result out.new numbers.old numbers.new }
{
    let parts = Parts {
        version,
        mic,
        lm,
        nt,
        domain,
        user,
        workstation,
        key,
    };
    c_respond::respond(
        out,
        challenge,
        SettingsBits::DEFAULTS,
        clock,
        &parts,
        numbers,
    )
}

#[unsafe(no_mangle)]
pub extern "C" fn dialtable_negotiate_line(msg: &[u8], out: &mut [u8]) -> u64
    ensures answer { result ≡ written_number (bytes_answer (negotiate_line msg.now) out.old) }
    ensures content { out.new ≡ bytes_after (negotiate_line msg.now) out.old }
{
    line_number(line::negotiate_line(msg, out))
}

#[unsafe(no_mangle)]
pub extern "C" fn dialtable_authenticate_line(msg: &[u8], out: &mut [u8]) -> u64
    ensures answer { result ≡ written_number (bytes_answer (authenticate_line msg.now) out.old) }
    ensures content { out.new ≡ bytes_after (authenticate_line msg.now) out.old }
{
    line_number(line::authenticate_line(msg, out))
}

#[unsafe(no_mangle)]
pub extern "C" fn dialtable_challenge_line(msg: &[u8], out: &mut [u8]) -> u64
    ensures answer { result ≡ written_number (bytes_answer (challenge_line msg.now) out.old) }
    ensures content { out.new ≡ bytes_after (challenge_line msg.now) out.old }
{
    line_number(line::challenge_line(msg, out))
}

#[unsafe(no_mangle)]
pub extern "C" fn dialtable_nl_auth_line(msg: &[u8], out: &mut [u8]) -> u64
    ensures answer { result ≡ written_number (bytes_answer (nl_auth_line msg.now) out.old) }
    ensures content { out.new ≡ bytes_after (nl_auth_line msg.now) out.old }
{
    line_number(line::nl_auth_line(msg, out))
}

#[unsafe(no_mangle)]
pub extern "C" fn dialtable_nl_auth_name(msg: &[u8], which: u32, out: &mut [u8]) -> u64
    ensures answer { result ≡ written_number (text_answer msg.now which out.old) }
    ensures content { out.new ≡ text_after msg.now which out.old }
{
    written_number(line_nl_string::write(msg, which, out))
}

#[unsafe(no_mangle)]
pub extern "C" fn dialtable_ntlm_line(msg: &[u8], out: &mut [u8]) -> u64
    ensures answer { result ≡ written_number (bytes_answer (ntlm_line msg.now) out.old) }
    ensures content { out.new ≡ bytes_after (ntlm_line msg.now) out.old }
{
    line_number(line::ntlm_line(msg, out))
}

#[unsafe(no_mangle)]
pub extern "C" fn dialtable_ntlm_program_line(msg: &[u8], out: &mut [u8]) -> u64
    ensures answer { result ≡ written_number (bytes_answer (shown_line (ntlm_line msg.now) out.old) out.old) }
    ensures content { out.new ≡ bytes_after (shown_line (ntlm_line msg.now) out.old) out.old }
{
    line_number(line::ntlm_program_line(msg, out))
}

#[unsafe(no_mangle)]
pub extern "C" fn dialtable_nl_auth_program_line(msg: &[u8], out: &mut [u8]) -> u64
    ensures answer { result ≡ written_number (bytes_answer (shown_line (nl_auth_line msg.now) out.old) out.old) }
    ensures content { out.new ≡ bytes_after (shown_line (nl_auth_line msg.now) out.old) out.old }
{
    line_number(line::nl_auth_program_line(msg, out))
}

#[unsafe(no_mangle)]
pub extern "C" fn dialtable_explain(msg: &[u8], out: &mut [u8]) -> u64
    ensures answer { result ≡ written_number (bytes_answer (explanation msg.now) out.old) }
    ensures content { out.new ≡ bytes_after (explanation msg.now) out.old }
{
    line_number(explain::write(msg, out))
}

#[unsafe(no_mangle)]
pub extern "C" fn dialtable_check_pairs(list: &[u8]) -> u64
    ensures { result ≡ verdict_number (check_pairs list.now) }
{
    verdict_number(av_pairs::check_pairs(list))
}

#[unsafe(no_mangle)]
pub extern "C" fn dialtable_field_bytes(msg: &[u8], offset: u32, len: u16, out: &mut [u8]) -> u64
    ensures answer { result ≡ written_number (field_copy_answer msg.now (record { offset = offset; len = len; max_len = 0 }) out.old) }
    ensures content { out.new ≡ field_copy_out msg.now (record { offset = offset; len = len; max_len = 0 }) out.old }
{
    c_read::field_bytes(msg, offset, len, out)
}

#[unsafe(no_mangle)]
pub extern "C" fn dialtable_domain_to_send<'a>(
    own: &'a [u8],
    challenge: &'a [u8],
    out: &mut [u8],
) -> u64
    ensures answer { result ≡ written_number (bytes_answer (domain_to_send own.now challenge.now) out.old) }
    ensures content { out.new ≡ bytes_after (domain_to_send own.now challenge.now) out.old }
{
    written_number(copy(out, domain_to_send(own, challenge)))
}

#[unsafe(no_mangle)]
pub extern "C" fn dialtable_write_negotiate(
    out: &mut [u8],
    flags: u32,
    version: &[u8; 8],
    domain: &[u8],
    workstation: &[u8],
) -> u64
    ensures answer { result ≡ written_number (negotiate_answer (length out.old) (record { bits = flags }) version.now domain.now workstation.now) }
    ensures content { out.new ≡ negotiate_out out.old (record { bits = flags }) version.now domain.now workstation.now }
{
    let flags = NegotiateFlags { bits: flags };
    let parts = write_negotiate::Parts {
        version,
        domain,
        workstation,
    };
    written_number(write_negotiate::write(out, flags, &parts))
}

#[unsafe(no_mangle)]
pub extern "C" fn dialtable_write_authenticate(
    out: &mut [u8],
    flags: u32,
    version: &[u8; 8],
    mic: &[u8; 16],
    lm: &[u8],
    nt: &[u8],
    domain: &[u8],
    user: &[u8],
    workstation: &[u8],
    key: &[u8],
) -> u64
    ensures answer { result ≡ written_number (write_answer (length out.old) (record { bits = flags }) version.now mic.now
        lm.now nt.now domain.now user.now workstation.now key.now) }
    ensures content { out.new ≡ write_out out.old (record { bits = flags }) version.now mic.now
        lm.now nt.now domain.now user.now workstation.now key.now }
{
    let flags = NegotiateFlags { bits: flags };
    let parts = Parts {
        version,
        mic,
        lm,
        nt,
        domain,
        user,
        workstation,
        key,
    };
    written_number(write(out, flags, &parts))
}

#[unsafe(no_mangle)]
pub extern "C" fn dialtable_write_nl_auth_request(
    out: &mut [u8],
    flags: u32,
    a: &[u8],
    b: &[u8],
    c: &[u8],
    d: &[u8],
    e: &[u8],
) -> u64
    ensures answer { result ≡ written_number (request_answer (length out.old) (known (record { bits = flags }))
        a.now b.now c.now d.now e.now) }
    ensures content { out.new ≡ request_out out.old (known (record { bits = flags }))
        a.now b.now c.now d.now e.now }
{
    let flags = NlAuthFlags { bits: flags };
    written_number(write_request(out, flags, a, b, c, d, e))
}

#[unsafe(no_mangle)]
pub extern "C" fn dialtable_write_nl_auth_response(out: &mut [u8]) -> u64
    ensures answer { result ≡ written_number (response_answer (length out.old)) }
    ensures content { out.new ≡ response_out out.old }
{
    written_number(write_response(out))
}

#[unsafe(no_mangle)]
pub extern "C" fn dialtable_write_response_pairs(
    out: &mut [u8],
    challenge: &[u8],
    target_name: &[u8],
    unverified: u32,
    bindings: &[u8; 16],
) -> u64
    ensures answer { result ≡ written_number (pairs_answer (length out.old)
        challenge.now target_name.now (not (eqb unverified 0)) bindings.now) }
    ensures content { out.new ≡ pairs_out out.old challenge.now target_name.now (not (eqb unverified 0)) bindings.now }
{
    written_number(write_response_pairs::write(
        out,
        challenge,
        target_name,
        !(unverified == 0),
        bindings,
    ))
}

#[unsafe(no_mangle)]
pub extern "C" fn dialtable_check_messages(buffer: &[u8], list: &mut [Entry]) -> u64
    ensures answer { result ≡ verdict_number (buffer_verdict buffer.now) }
    ensures content { list.new ≡ filled buffer.now list.old }
{
    verdict_number(batch::check_messages(buffer, list))
}

#[unsafe(no_mangle)]
pub extern "C" fn dialtable_canonical_authenticate(out: &mut [u8], msg: &[u8]) -> u64
    ensures answer { result ≡ written_number (canonical_answer (length out.old) msg.now) }
    ensures content { out.new ≡ canonical_out out.old msg.now }
{
    written_number(write_canonical::write(out, msg))
}

#[unsafe(no_mangle)]
pub extern "C" fn dialtable_mic(
    key: &[u8],
    negotiate: &[u8],
    challenge: &[u8],
    authenticate: &[u8],
    mic: &mut [u8],
) -> u64
    ensures answer { result ≡ call_number 16 (mic_outcome (computed_mic key.now negotiate.now challenge.now authenticate.now))
        (length mic.old) }
    ensures content { mic.new ≡ call_out 16 (mic_outcome (computed_mic key.now negotiate.now challenge.now authenticate.now))
        mic.old }
{
    c_mic::compute(key, negotiate, challenge, authenticate, mic)
}

#[unsafe(no_mangle)]
pub extern "C" fn dialtable_check_mic(
    key: &[u8],
    negotiate: &[u8],
    challenge: &[u8],
    authenticate: &[u8],
) -> u64
    ensures { result ≡ checking_number (check_mic key.now negotiate.now challenge.now authenticate.now) }
{
    c_mic::check_mic(key, negotiate, challenge, authenticate)
}

#[unsafe(no_mangle)]
pub extern "C" fn dialtable_export_header(out: &mut [u8], msg: &[u8]) -> u64
    ensures answer { result ≡ written_number (export_answer (length out.old) msg.now) }
    ensures content { out.new ≡ export_out out.old msg.now }
{
    written_number(http_header_line::export(out, msg))
}

#[unsafe(no_mangle)]
pub extern "C" fn dialtable_import_header(out: &mut [u8], text: &[u8]) -> u64
    ensures answer { result ≡ written_number (import_answer (length out.old) text.now) }
    ensures content { out.new ≡ import_out out.old text.now }
{
    written_number(http_header_line::import(out, text))
}

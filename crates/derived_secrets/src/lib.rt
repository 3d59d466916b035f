// The secrets derived from those of the stages (RFC 8446, section 7.1). A key is prepared once for all that is derived from it.
// Each function is a stage's lines of the RFC's diagram; one over all stages would be a table of labels and hide them.
#![tactic(auto)]

ghost use Rattle.std.specs.Prelude.{◌≡◌, [], take};
ghost use Rattle.buffer.specs.Buffer.{placed};
ghost use Rattle.suite.specs.Suite.{hash_length};
ghost use Rattle.hkdf.specs.Rfc8446.{derive_secret};
ghost use Rattle.schedule.specs.Labels.{Secret, label, binder_of};
ghost use Rattle.schedule.specs.Schedule.{from_hash};

use keyed::ready;
use schedule::{derive, over_nothing};
use suite::Suite;

// client_early_traffic_secret and early_exporter_master_secret: over the ClientHello.
#[derive(Clone, Copy)]
pub struct EarlySecrets {
    pub client: [u8; 48],
    pub exporter: [u8; 48],
}

// client_handshake_traffic_secret and server_handshake_traffic_secret: up to the ServerHello.
#[derive(Clone, Copy)]
pub struct HandshakeSecrets {
    pub client: [u8; 48],
    pub server: [u8; 48],
}

// client_application_traffic_secret_0, server_application_traffic_secret_0 and exporter_master_secret: up to the server's
// Finished.
#[derive(Clone, Copy)]
pub struct ApplicationSecrets {
    pub client: [u8; 48],
    pub server: [u8; 48],
    pub exporter: [u8; 48],
}

// binder_key: over nothing. Kind 1 is external; any other is read as resumption.
pub fn binder_key(suite: u16, kind: u8, early: [u8; 48]) -> [u8; 48]
    ensures { result ≡ placed (derive_secret suite (take (hash_length suite) early) (label (binder_of kind)) []) }
{
    match kind {
        1 => over_nothing(suite, early, b"ext binder"),
        _ => over_nothing(suite, early, b"res binder"),
    }
}

pub fn early_secrets(suite: u16, early: [u8; 48], transcript: [u8; 48]) -> EarlySecrets
    ensures { (result.client ≡ placed (from_hash suite Secret.client_early (take (hash_length suite) early) (take (hash_length suite) transcript))) × (result.exporter ≡ placed (from_hash suite Secret.early_exporter (take (hash_length suite) early) (take (hash_length suite) transcript))) }
{
    let h = Suite::hash_len(suite);
    let k = ready(suite, early);
    let client = derive(suite, k, b"c e traffic", &transcript[..h]);
    let exporter = derive(suite, k, b"e exp master", &transcript[..h]);
    EarlySecrets { client, exporter }
}

pub fn handshake_secrets(suite: u16, handshake: [u8; 48], transcript: [u8; 48]) -> HandshakeSecrets
    ensures { (result.client ≡ placed (from_hash suite Secret.client_handshake (take (hash_length suite) handshake) (take (hash_length suite) transcript))) × (result.server ≡ placed (from_hash suite Secret.server_handshake (take (hash_length suite) handshake) (take (hash_length suite) transcript))) }
{
    let h = Suite::hash_len(suite);
    let k = ready(suite, handshake);
    let client = derive(suite, k, b"c hs traffic", &transcript[..h]);
    let server = derive(suite, k, b"s hs traffic", &transcript[..h]);
    HandshakeSecrets { client, server }
}

pub fn application_secrets(suite: u16, master: [u8; 48], transcript: [u8; 48]) -> ApplicationSecrets
    ensures { (result.client ≡ placed (from_hash suite Secret.client_application (take (hash_length suite) master) (take (hash_length suite) transcript))) × (result.server ≡ placed (from_hash suite Secret.server_application (take (hash_length suite) master) (take (hash_length suite) transcript))) × (result.exporter ≡ placed (from_hash suite Secret.exporter (take (hash_length suite) master) (take (hash_length suite) transcript))) }
{
    let h = Suite::hash_len(suite);
    let k = ready(suite, master);
    let client = derive(suite, k, b"c ap traffic", &transcript[..h]);
    let server = derive(suite, k, b"s ap traffic", &transcript[..h]);
    let exporter = derive(suite, k, b"exp master", &transcript[..h]);
    ApplicationSecrets {
        client,
        server,
        exporter,
    }
}

// resumption_master_secret: up to the client's Finished.
pub fn resumption_secret(suite: u16, master: [u8; 48], transcript: [u8; 48]) -> [u8; 48]
    ensures { result ≡ placed (from_hash suite Secret.resumption (take (hash_length suite) master) (take (hash_length suite) transcript)) }
{
    let h = Suite::hash_len(suite);
    let k = ready(suite, master);
    derive(suite, k, b"res master", &transcript[..h])
}

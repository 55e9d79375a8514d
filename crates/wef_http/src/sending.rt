//! Texts, sent whole.

ghost use Rattle.std.specs.Prelude.{◌≡◌, ◌++◌, ◌≤◌, OnOk, IfErr, string_bytes};
ghost use Rattle.wef_base.specs.Counts.{Rose};
ghost use Rattle.wef_http_heads.specs.declared.ends.HttpEnd.TheVariants.{ReadFault};
ghost use Rattle.wef_http.specs.Sending.{IsNotSent, Sends, SendsPart};
ghost use Rattle.wef_ports.specs.Telling.{OnlyWrites};

use wef_http_heads::HttpEnd;
use wef_ports::Port;

/// How many bytes a body has at most that is sent at once with its head.
const AT_ONCE: usize = 65_536;

/// Sends a head and then a body. A short body is copied behind the head, so that one write sends
/// both; a longer one isn't copied.
pub fn send_message<P: Port>(port: &mut P, head: String, body: &[u8]) -> Result<(), HttpEnd>
    ensures sent { OnOk result (Sends (P.told port.old) (P.told port.new) (string_bytes head ++ body.now)) }
    ensures refused { IfErr result (IsNotSent (P.told port.old) (P.told port.new)) }
    ensures part { SendsPart (P.told port.old) (P.told port.new) (string_bytes head ++ body.now) }
    ensures rest { OnlyWrites (P.told port.old) (P.told port.new) }
    ensures later { (P.told port.old).faults ≤ (P.told port.new).faults }
{
    let mut first = head.into_bytes();
    if body.len() <= AT_ONCE {
        first.extend_from_slice(body)?;
        return send(port, first.as_slice());
    }
    send(port, first.as_slice())?;
    send(port, body)
}

/// Sends a whole text, in as many pieces as the port wants. It takes no memory.
fn send<P: Port>(port: &mut P, text: &[u8]) -> Result<(), HttpEnd>
    ensures sent { OnOk result (Sends (P.told port.old) (P.told port.new) text.now) }
    ensures refused { IfErr result (λ e. (e ≡ ReadFault) × Rose (P.told port.old).faults (P.told port.new).faults) }
    ensures part { SendsPart (P.told port.old) (P.told port.new) text.now }
    ensures rest { OnlyWrites (P.told port.old) (P.told port.new) }
    ensures later { (P.told port.old).faults ≤ (P.told port.new).faults }
{
    let mut at = 0;
    while at < text.len() {
        match port.write(&text[at..]) {
            Ok(count) => at += count,
            Err(_) => return Err(HttpEnd::ReadFault),
        }
    }
    Ok(())
}

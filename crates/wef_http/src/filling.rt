//! Bytes from a port.

ghost use Rattle.std.specs.Prelude.{◌≡◌, ◌<◌, IfOk, IfErr};
ghost use Rattle.wef_http.specs.Reading.{Comes, HasRead};
ghost use Rattle.wef_http_heads.specs.Laws.{IsByBytes};

use wef_http_heads::HttpEnd;
use wef_ports::Port;

/// How many bytes are asked of a port at once.
const PIECE: usize = 4_096;

/// Reads at most `room` bytes, and puts them behind those that are there. Whether there were any.
pub fn fill<P: Port>(port: &mut P, bytes: &mut Vec<u8>, room: usize) -> Result<bool, HttpEnd>
    requires { 0 < room }
    ensures came { IfOk result (Comes (P.told port.old) (P.told port.new) bytes.old.items bytes.new.items room) }
    ensures outside { HasRead (P.told port.old) (P.told port.new) result }
    ensures err { IfErr result (λ _. bytes.new.items ≡ bytes.old.items) }
    ensures kinds { IfErr result (λ e. IsByBytes e → ⊥) }
{
    let mut piece = [0; PIECE];
    let size = room.min(PIECE);
    match port.read(&mut piece[..size]) {
        Ok(count) => {
            bytes.extend_from_slice(&piece[..count])?;
            Ok(count > 0)
        }
        Err(_) => Err(HttpEnd::ReadFault),
    }
}

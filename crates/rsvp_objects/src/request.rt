//! LABEL_REQUEST, generalized (RFC 3473, section 2.1).

ghost use Rattle.std.specs.Prelude.{◌↔◌, IsSome};
ghost use Rattle.wire_buf.specs.{Codecs.AppendsBytes, Objects.object};
ghost use Rattle.rsvp_objects.specs.Bodies.{IsRequest, request_bytes};

use ason_base::OutOfMemory;

/// The LSP encoding type Lambda (RFC 3471, section 3.1.1).
const LAMBDA: u8 = 8;

/// The switching type Lambda-Switch Capable.
const LAMBDA_SWITCH: u8 = 150;

/// The request of a wavelength.
#[derive(Clone, Copy, Drop)]
pub struct LabelRequest;

/// The request of a LABEL_REQUEST's body. None exactly where the body isn't the request of a wavelength.
pub fn read_request(body: &[u8]) -> Option<LabelRequest>
    ensures { IsSome result ↔ IsRequest body.now }
{
    match body {
        [LAMBDA, LAMBDA_SWITCH, _, _] => Some(LabelRequest),
        _ => None,
    }
}

/// Appends the LABEL_REQUEST object, with the G-PID 0.
pub fn write_request(out: &mut Vec<u8>, _x: &LabelRequest) -> Result<(), OutOfMemory>
    ensures { AppendsBytes out.old out.new (object 19 4 request_bytes) result }
{
    out.extend_from_slice(&[0, 8, 19, 4, LAMBDA, LAMBDA_SWITCH, 0, 0])?;
    Ok(())
}

/// Law: what is written of a request is read as a request again.
pub fn requests_come_back()
    ensures { IsRequest request_bytes }
{}

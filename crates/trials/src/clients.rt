// A client of a rack that serves one interrupt by token. Nothing here can lose a token: each is handed in, or handed on with the fault.
ghost use Rattle.std.specs.Prelude.{◌≡◌, false};
ghost use Rattle.trials.specs.Clients.{Handed};

use card::{Card, Handler};
use processor::{Refused, ServiceToken, TakenToken};
use rack::{Rack, RackFault};

/// Why a service stopped, with the token that is left to hand in.
pub enum Stopped {
    Before(RackFault),
    Taken(Refused<RackFault, TakenToken>),
    Serving(Refused<RackFault, ServiceToken>),
}

/// Takes, acknowledges and returns. Gives the mask that was put back, or none if no level was taken.
pub fn serve_once<H: Handler, C: Card>(rack: &mut Rack<H, C>) -> Result<Option<u8>, Stopped>
    ensures { Handed result }
{
    let Some(token) = rack.take().map_err(Stopped::Before)? else {
        return Ok(None);
    };
    let (_, service) = rack.acknowledge(token).map_err(Stopped::Taken)?;
    close(rack, service)
}

fn close<H: Handler, C: Card>(
    rack: &mut Rack<H, C>,
    service: ServiceToken,
) -> Result<Option<u8>, Stopped>
    requires { service.spent ≡ false }
    ensures { Handed result }
{
    let mask = rack.return_from(service).map_err(Stopped::Serving)?;
    Ok(Some(mask))
}

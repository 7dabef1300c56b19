// Data that were granted: by their case, which writer, and of which part of the body.
ghost use Rattle.std.specs.Prelude.{◌≡◌, true, ◌+◌, ◌≤◌, length};
ghost use Rattle.wire.specs.Wrote.{Wrote};
ghost use Rattle.model.specs.Objects.{simple_data};
ghost use Rattle.body.specs.View.{body_of, body_sound};
ghost use Rattle.objects.specs.Meanings.{plain_as};
ghost use Rattle.results.specs.Results.{data_as};

use body::BodyState;
use data::{
    put_clock, put_date, put_name, put_rows, put_scaler_unit, put_time, put_unsigned16,
    put_unsigned32,
};
use model::Name;
use objects::Plain;
use results::Data;

// Data of any kind.
pub fn put_data(out: &mut [u8], at: usize, d: Data, name: Name, body: BodyState) -> usize
    requires { (body_sound (body_of body) ≡ true) × (at + length (data_as name (body_of body) d) ≤ length out.old) }
    ensures { Wrote out.old at out.new result (data_as name (body_of body) d) }
{
    match d {
        Data::Name => put_name(out, at, name),
        Data::Plain(x) => put_plain(out, at, x, body),
        Data::Rows { which } => put_rows(out, at, body.rows, which),
        Data::RecordNumber => put_unsigned16(out, at, body.number),
        Data::Value(value) => put_unsigned32(out, at, value),
        Data::ScalerUnit { scaler, unit } => put_scaler_unit(out, at, scaler, unit),
        Data::Nothing => at,
    }
}

fn put_plain(out: &mut [u8], at: usize, x: Plain, body: BodyState) -> usize
    requires { at + length (simple_data (plain_as x) (body_of body)) ≤ length out.old }
    ensures { Wrote out.old at out.new result (simple_data (plain_as x) (body_of body)) }
{
    match x {
        Plain::Clock => put_clock(out, at, body.clock),
        Plain::Time => put_time(out, at, body.clock),
        Plain::Date => put_date(out, at, body.clock),
        Plain::Device => {
            let a = wire_write::put_all(out, at, b"\x0A\x10");
            wire_write::put_array(out, a, &body.device)
        }
    }
}

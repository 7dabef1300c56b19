// The object table: which client is served what. The names are those of store::own_names, in its order.
ghost use Rattle.std.specs.Prelude.{◌≡◌, cond, [], ◌∷◌, ◌≤◌, Some};
ghost use Rattle.model.specs.declared.Client.TheVariants.{Ciphering};
ghost use Rattle.model.specs.Objects.{among_own, among_registers, device_object, meaning, own_objects, unknown};
ghost use Rattle.store.specs.Lists.{registers_of};
ghost use Rattle.objects.specs.Meanings.{found_as};

use crate::{Plain, Served, Shown};
use model::{CipherClient, Client, Name};
use store::Registers;

// What a name means to a client.
pub fn find(client: Client, name: Name, registers: Registers) -> Option<Served>
    requires { registers.count ≤ 16 }
    ensures { found_as name result ≡ meaning client name (registers_of registers) }
{
    match client {
        Client::Verification => find_device(name),
        Client::Ciphering(c) => find_ciphering(c, name, registers),
    }
}

// What it means to a client that ciphers.
fn find_ciphering(client: CipherClient, name: Name, registers: Registers) -> Option<Served>
    requires { registers.count ≤ 16 }
    ensures { found_as name result ≡ meaning (Ciphering client) name (registers_of registers) }
{
    match client {
        CipherClient::Han => find_own(name, registers),
    }
}

// The device name, which is all that V reads.
fn find_device(name: Name) -> Option<Served>
    ensures { found_as name result ≡ among_own name (device_object ∷ []) unknown }
{
    let own = store::own_names();
    if own[4] == name {
        known(1, 2, 0, Shown::Of(Plain::Device))
    } else {
        None
    }
}

// An own object, or else a register. The first own name is the challenge's, which is not read.
fn find_own(name: Name, registers: Registers) -> Option<Served>
    requires { registers.count ≤ 16 }
    ensures { found_as name result ≡ among_own name own_objects (among_registers name (registers_of registers)) }
{
    let Some(i) = names::seat_of(name, &store::own_names()) else {
        return find_register(name, registers);
    };
    match i {
        1 => known(8, 2, 0, Shown::Of(Plain::Clock)),
        2 => known(1, 2, 0, Shown::Of(Plain::Time)),
        3 => known(1, 2, 0, Shown::Of(Plain::Date)),
        4 => known(1, 2, 0, Shown::Of(Plain::Device)),
        5 => known(7, 2, 1, Shown::Rows),
        6 => known(3, 3, 1, Shown::RecordNumber),
        _ => find_register(name, registers),
    }
}

fn find_register(name: Name, registers: Registers) -> Option<Served>
    requires { registers.count ≤ 16 }
    ensures { found_as name result ≡ among_registers name (registers_of registers) }
{
    let r = registers.items[..registers.count]
        .iter()
        .find(|r| r.name == name)?;
    known(3, attributes_if(r.readable), 0, Shown::Register(*r))
}

// The attributes of a register: without the right none is served.
fn attributes_if(readable: bool) -> u8
    ensures { result ≡ cond readable 3 0 }
{
    if readable { 3 } else { 0 }
}

fn known(class: u16, attributes: u8, methods: u8, shown: Shown) -> Option<Served>
    ensures { result ≡ Some (record { class = class; attributes = attributes; methods = methods; shown = shown }) }
{
    Some(Served {
        class,
        attributes,
        methods,
        shown,
    })
}

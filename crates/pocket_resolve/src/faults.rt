// Faults with the names that they tell.
ghost use Rattle.std.specs.Prelude.{◌≡◌, ◌≢◌};
ghost use Rattle.pocket_types.specs.declared.faults.ResolveFault.TheVariants as fault;

use pocket_types::{ResolveFault, Text};
use std::alloc::Global;

pub fn no_collection(alloc: Global, name: &str) -> ResolveFault
    ensures { result ≢ fault.Memory → result ≡ fault.NoCollection name.now }
{
    match Text::from_str(alloc, name) {
        Ok(name) => ResolveFault::NoCollection(name),
        Err(_) => ResolveFault::Memory,
    }
}

pub fn no_field(alloc: Global, name: &str) -> ResolveFault
    ensures { result ≢ fault.Memory → result ≡ fault.NoField name.now }
{
    match Text::from_str(alloc, name) {
        Ok(name) => ResolveFault::NoField(name),
        Err(_) => ResolveFault::Memory,
    }
}

pub fn not_relation(alloc: Global, name: &str) -> ResolveFault
    ensures { result ≢ fault.Memory → result ≡ fault.NotRelation name.now }
{
    match Text::from_str(alloc, name) {
        Ok(name) => ResolveFault::NotRelation(name),
        Err(_) => ResolveFault::Memory,
    }
}

pub fn hidden_field(alloc: Global, name: &str) -> ResolveFault
    ensures { result ≢ fault.Memory → result ≡ fault.HiddenField name.now }
{
    match Text::from_str(alloc, name) {
        Ok(name) => ResolveFault::HiddenField(name),
        Err(_) => ResolveFault::Memory,
    }
}

//! What a command's values ask for.

ghost use Rattle.std.specs.Prelude.{◌≡◌, IfOk, map, [], ◌∷◌};
ghost use Rattle.fss_words.specs.Commands.{command_of, feed_of, serve_of, server_numbers, work_of};

use crate::numbers::{is_address, number, roughness, short_number};
use crate::wanted::{ServePlan, Wanted};
use nfs3_types::{NoMemory, Text};
use std::alloc::Global;

/// `feed`: the stores and the replicas, or neither.
fn feed(values: &[&str]) -> Option<Wanted>
    ensures { result ≡ feed_of (map (λ value. value.now) values.now) }
{
    match values {
        [] => Some(Wanted::Feed {
            stores: 4,
            replicas: 3,
        }),
        [stores, replicas] => Some(Wanted::Feed {
            stores: short_number(stores, u32::MAX)?,
            replicas: short_number(replicas, u32::MAX)?,
        }),
        _ => None,
    }
}

/// `work` with a number and calls.
fn short_work(name: &str, calls: &str) -> Option<Wanted>
    ensures { result ≡ work_of (name.now ∷ calls.now ∷ []) }
{
    Some(Wanted::Work {
        number: number(name, u64::MAX)?,
        calls: short_number(calls, 16_384)?,
        stores: 4,
        replicas: 3,
        lost: 0,
        rough: 0,
    })
}

/// `work` with all its values.
fn whole_work(
    name: &str,
    calls: &str,
    stores: &str,
    replicas: &str,
    lost: &str,
    rough: &str,
) -> Option<Wanted>
    ensures { result ≡ work_of (name.now ∷ calls.now ∷ stores.now ∷ replicas.now ∷ lost.now ∷ rough.now ∷ []) }
{
    Some(Wanted::Work {
        number: number(name, u64::MAX)?,
        calls: short_number(calls, 16_384)?,
        stores: short_number(stores, u32::MAX)?,
        replicas: short_number(replicas, u32::MAX)?,
        lost: short_number(lost, u32::MAX)?,
        rough: roughness(rough)?,
    })
}

/// `work`: the number and the calls, and the rest or nothing.
fn work(values: &[&str]) -> Option<Wanted>
    ensures { result ≡ work_of (map (λ value. value.now) values.now) }
{
    if values.len() == 2 {
        return short_work(values[0], values[1]);
    }
    if values.len() == 6 {
        return whole_work(
            values[0], values[1], values[2], values[3], values[4], values[5],
        );
    }
    None
}

/// The four numbers of `serve`.
fn server_numbers(
    workers: &str,
    connections: &str,
    stores: &str,
    replicas: &str,
) -> Option<(u32, u32, u32, u32)>
    ensures { result ≡ server_numbers workers.now connections.now stores.now replicas.now }
{
    let workers = short_number(workers, u32::MAX)?;
    let connections = short_number(connections, u32::MAX)?;
    let stores = short_number(stores, u32::MAX)?;
    let replicas = short_number(replicas, u32::MAX)?;
    Some((workers, connections, stores, replicas))
}

/// `serve` with its five values.
fn whole_serve(
    alloc: Global,
    address: &str,
    workers: &str,
    connections: &str,
    stores: &str,
    replicas: &str,
) -> Result<Option<Wanted>, NoMemory>
    ensures { IfOk result (λ wanted. wanted
        ≡ serve_of (address.now ∷ workers.now ∷ connections.now ∷ stores.now ∷ replicas.now ∷ [])) }
{
    if !is_address(address) {
        return Ok(None);
    }
    let Some((workers, connections, stores, replicas)) = server_numbers(
        workers,
        connections,
        stores,
        replicas,
    ) else {
        return Ok(None);
    };
    let address = Text::from_slice(alloc, address.as_bytes())?;
    Ok(Some(Wanted::Serve(ServePlan {
        address,
        workers,
        connections,
        stores,
        replicas,
        fsid: 4_294_967_296,
        verifier: [102, 115, 115, 0, 0, 0, 0, 1],
    })))
}

/// `serve`: five values.
fn serve(alloc: Global, values: &[&str]) -> Result<Option<Wanted>, NoMemory>
    ensures { IfOk result (λ wanted. wanted ≡ serve_of (map (λ value. value.now) values.now)) }
{
    if values.len() == 5 {
        return whole_serve(alloc, values[0], values[1], values[2], values[3], values[4]);
    }
    Ok(None)
}

/// What the command with these values asks for.
pub(crate) fn command(
    alloc: Global,
    name: &str,
    values: &[&str],
) -> Result<Option<Wanted>, NoMemory>
    ensures { IfOk result (λ wanted. wanted ≡ command_of name.now (map (λ value. value.now) values.now)) }
{
    if name == "feed" {
        return Ok(feed(values));
    }
    if name == "work" {
        return Ok(work(values));
    }
    if name == "serve" {
        return serve(alloc, values);
    }
    Ok(None)
}

//! Links that come through doors.

ghost use Rattle.std.specs.Prelude.{◌≡◌, IfOk};

use serv_disk::{CalmDoors, CalmLink, Doors, Failed, MemDoors, MemLink, Sink, Source};
use std::alloc::Global;
use std::test::Fail;
use svc_base::OutOfMemory;

/// Reads twice from the next link, answers `ok` and hands it back. How many bytes each read gave.
pub fn serve<D: Doors>(doors: &mut D, room: &mut [u8]) -> Result<Option<[usize; 2]>, Failed>
    requires { D.out doors.old ≡ 0 }
    ensures { D.out doors.new ≡ 0 }
{
    match doors.next() {
        Ok(Some(mut link)) => {
            let first = link.read(room).unwrap_or(99);
            let second = link.read(room).unwrap_or(99);
            let _ = link.write(b"ok");
            doors.back(link);
            Ok(Some([first, second]))
        }
        Ok(None) => Ok(None),
        Err(failed) => Err(failed),
    }
}

fn link_of(alloc: Global, rest: &[u8]) -> Result<MemLink, OutOfMemory> {
    let rest = rest.to_vec(alloc)?;
    Ok(MemLink::new(alloc, rest, Vec::new(alloc), Vec::new(alloc)))
}

/// Doors at which two links come, and whose second call fails.
fn doors_of_two(alloc: Global) -> Result<MemDoors, OutOfMemory>
    ensures { IfOk result (λ doors. doors.links.out ≡ 0) }
{
    let mut links = Vec::new(alloc);
    links.push(link_of(alloc, b"ab")?)?;
    links.push(link_of(alloc, b"c")?)?;
    MemDoors::new(alloc, links, [2].to_vec(alloc)?)
}

/// The answers of four services.
fn served(doors: &mut MemDoors) -> [Result<Option<[usize; 2]>, Failed>; 4]
    requires { doors.old.links.out ≡ 0 }
{
    let mut room = [0; 4];
    let first = serve(doors, &mut room);
    let second = serve(doors, &mut room);
    let third = serve(doors, &mut room);
    let fourth = serve(doors, &mut room);
    [first, second, third, fourth]
}

fn are_answered(links: &[MemLink]) -> bool {
    links.len() == 2 && links.iter().all(|link| link.content() == b"ok".as_slice())
}

#[test]
fn links_come_in_order_and_go_back_as_they_were_left(rt: HostRuntime) -> Result<(), Fail> {
    let mut doors = doors_of_two(rt.alloc())?;
    assert!(rt; served(&mut doors) == [Ok(Some([2, 0])), Err(Failed), Ok(Some([1, 0])), Ok(None)]);
    assert!(rt; are_answered(doors.links_back()));
    Ok(())
}

/// Doors at which one link comes.
fn calm_doors(alloc: Global) -> Result<CalmDoors, OutOfMemory>
    ensures { IfOk result (λ doors. doors.out ≡ 0) }
{
    let mut links = Vec::new(alloc);
    links.push(CalmLink::new(b"abc".to_vec(alloc)?))?;
    CalmDoors::new(alloc, links)
}

#[test]
fn calm_doors_give_each_link_and_then_none(rt: HostRuntime) -> Result<(), Fail> {
    let mut doors = calm_doors(rt.alloc())?;
    let mut room = [0; 4];
    let first = serve(&mut doors, &mut room);
    let second = serve(&mut doors, &mut room);
    assert!(rt; first == Ok(Some([3, 0])) && second == Ok(None));
    Ok(())
}

// Meshes tried on examples.
use crate::fault::{ListFault, MergeFault, SplitFault};
use crate::mesh::Mesh;
use bintree::fault::OrderFault;
use std::process::Abort;
use std::test::Fail;

// The mesh has just these triangles.
fn shows(rt: &impl Abort, mesh: &Mesh, expected: &[u32]) {
    assert_eq!(rt; mesh.count(), expected.len());
    assert!(rt; expected.iter().all(|i| mesh.contains(*i)));
}

fn split_all(mesh: &mut Mesh, numbers: &[u32]) -> Result<(), SplitFault> {
    for i in numbers {
        mesh.split(*i)?;
    }
    Ok(())
}

#[test]
fn forces_the_holder_of_the_partner(rt: HostRuntime) -> Result<(), Fail> {
    let mut mesh = Mesh::new(rt.alloc())?;
    mesh.reset(2)?;
    split_all(&mut mesh, &[2, 4])?;
    shows(&rt, &mesh, &[5, 6, 7, 8, 9]);
    mesh.split(8)?;
    shows(&rt, &mesh, &[6, 7, 9, 10, 16, 17, 22, 23]);
    Ok(())
}

// 5444 forces 2723, that 1360, and so on, down to 7: a half of a root, at the border. (A root is never forced: the two roots are split together.)
#[test]
fn forces_a_chain_from_level_eleven_to_level_one(rt: HostRuntime) -> Result<(), Fail> {
    let mut mesh = Mesh::new(rt.alloc())?;
    mesh.reset(6)?;
    split_all(
        &mut mesh,
        &[2, 5, 10, 21, 42, 85, 170, 340, 680, 1361, 2722],
    )?;
    assert_eq!(rt; mesh.count(), 40);
    let chain = [5444, 2723, 1360, 681, 427, 212, 107, 52, 27, 12, 7];
    assert!(rt; chain.iter().all(|i| mesh.contains(*i)));
    mesh.split(5444)?;
    assert_eq!(rt; mesh.count(), 61);
    assert!(rt; !chain.iter().any(|i| mesh.contains(*i)));
    Ok(())
}

#[test]
fn merges_by_either_triangle(rt: HostRuntime) -> Result<(), Fail> {
    let mut mesh = Mesh::new(rt.alloc())?;
    for i in [2, 3] {
        mesh.split(2)?;
        shows(&rt, &mesh, &[4, 5, 6, 7]);
        mesh.merge(i)?;
        shows(&rt, &mesh, &[2, 3]);
    }
    mesh.split(2)?;
    mesh.split(4)?;
    mesh.merge(4)?;
    shows(&rt, &mesh, &[4, 5, 6, 7]);
    Ok(())
}

#[test]
fn refuses(rt: HostRuntime) -> Result<(), Fail> {
    let mut mesh = Mesh::new(rt.alloc())?;
    split_all(&mut mesh, &[2, 4])?;
    assert_eq!(rt; mesh.reset(0), Err(OrderFault { order: 0 }));
    assert_eq!(rt; mesh.reset(7), Err(OrderFault { order: 7 }));
    for i in [0, 1, 4, 10, 16, 4294967295] {
        assert_eq!(rt; mesh.split(i), Err(SplitFault::Absent(i)));
    }
    assert_eq!(rt; mesh.split(8), Err(SplitFault::Finest(8)));
    for i in [0, 1, 2, 3, 5, 8, 16, 4294967295] {
        assert_eq!(rt; mesh.merge(i), Err(MergeFault { triangle: i }));
    }
    shows(&rt, &mesh, &[5, 6, 7, 8, 9]);
    Ok(())
}

#[test]
fn lists_at_exact_short_and_long_buffers(rt: HostRuntime) -> Result<(), Fail> {
    let mesh = Mesh::new(rt.alloc())?;
    let mut exact = [0u16; 6];
    assert_eq!(rt; mesh.index_list(&mut exact)?, 2);
    assert_eq!(rt; exact, [0, 2, 6, 8, 6, 2]);
    let mut short = [9u16; 5];
    assert_eq!(rt; mesh.index_list(&mut short), Err(ListFault { places: 6 }));
    assert_eq!(rt; short, [9, 9, 9, 9, 9]);
    let mut long = [9u16; 8];
    assert_eq!(rt; mesh.index_list(&mut long)?, 2);
    assert_eq!(rt; long, [0, 2, 6, 8, 6, 2, 9, 9]);
    Ok(())
}

// What the program prints of a refusal.
#[test]
fn faults_print_their_refusals(rt: HostRuntime) -> Result<(), Fail> {
    let alloc = rt.alloc();
    assert_eq!(rt;
        format!(in alloc; "{}", SplitFault::Absent(4))?.as_str(),
        "refused 11 triangle 4"
    );
    assert_eq!(rt;
        format!(in alloc; "{}", SplitFault::Finest(8))?.as_str(),
        "refused 12 triangle 8"
    );
    assert_eq!(rt;
        format!(in alloc; "{}", MergeFault { triangle: 5 })?.as_str(),
        "refused 13 triangle 5"
    );
    assert_eq!(rt;
        format!(in alloc; "{}", ListFault { places: 6 })?.as_str(),
        "refused 16 places 6"
    );
    Ok(())
}

// A studio's own rule, tried on a small map.
#![tactic(auto)]

use bintree::point::Point;
use policy::policy::Policy;
use priority::stored::Stored;
use shallow::Shallow;
use std::io;
use terrain::draft::Draft;

mod shallow;

fn main(rt: HostRuntime) -> io::Result<()> {
    let Ok(mut draft) = Draft::new(rt.alloc()) else {
        return println!(rt; "no memory");
    };
    let _ = draft.set(Point { x: 1, y: 1 }, 10);
    let _ = draft.set(Point { x: 1, y: 0 }, 3);
    let map = draft.measure();
    let stored = Stored { map: &map };
    let rule = Shallow {
        below: stored,
        levels: 1,
    };
    for triangle in [2, 3, 4, 16] {
        let before = stored.priority(triangle);
        let after = rule.priority(triangle);
        println!(rt; "{triangle} has {before}, kept shallow {after}")?;
    }
    Ok(())
}

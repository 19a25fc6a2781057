use crate::{Trail, trace, way_of};
use path_model::{Graph, Node};
use std::test::Fail;

// Round the nodes 0 and 1 twice, and then on to node 2.
struct Rounds;

impl Trail for Rounds {
    ghost use Rattle.std.specs.Prelude.{[], ◌∷◌, Some, None};

    ghost entries = { λ _. record { node = 0; earlier = None } ∷ record { node = 1; earlier = Some 0 }
        ∷ record { node = 0; earlier = Some 1 } ∷ record { node = 1; earlier = Some 2 }
        ∷ record { node = 2; earlier = Some 3 } ∷ [] };

    fn node(&self, entry: u32) -> u32 {
        match entry {
            0 | 2 => 0,
            1 | 3 => 1,
            _ => 2,
        }
    }

    fn earlier(&self, entry: u32) -> Option<u32> {
        entry.checked_sub(1)
    }
}

#[test]
fn an_entry_has_the_path_to_its_node_and_the_way_that_names_it(
    rt: HostRuntime,
) -> Result<(), Fail> {
    let alloc = rt.alloc();
    let nodes = [
        Node {
            at: 0,
            first: Some(1),
            second: None,
        },
        Node {
            at: 4,
            first: Some(2),
            second: Some(0),
        },
        Node {
            at: 8,
            first: None,
            second: None,
        },
    ];
    let graph = Graph::new(Vec::from_slice(alloc, &nodes)?).expect(&rt, "a graph");
    assert_eq!(rt;
        trace(alloc, &graph, &Rounds, 4)?.as_slice(),
        [0, 1, 0, 1, 2].as_slice()
    );
    assert_eq!(rt;
        trace(alloc, &graph, &Rounds, 2)?.as_slice(),
        [0, 1, 0].as_slice()
    );
    assert_eq!(rt;
        trace(alloc, &graph, &Rounds, 0)?.as_slice(),
        [0].as_slice()
    );
    let way = way_of(alloc, &graph, &Rounds, 4)?;
    assert_eq!(rt; way.steps, 5);
    assert_eq!(rt; way.choices.letters(), b"tn".as_slice());
    Ok(())
}

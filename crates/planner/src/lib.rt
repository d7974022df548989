// The planner: the first admissible assignment of directions to a mesh's links.
#![tactic(auto)]

ghost use Rattle.std.specs.Prelude.{◌≡◌};
ghost use Rattle.planner.specs.Plan.{planned_by, planned};

mod search;

use mesh::{Mesh, Plan, Reason};

// A plan, all zeros where planning refuses.
// form: no Result, since by 01 a refused plan is all zeros, which the clause of `plan` and the theorem `survey_verdict` read off this record.
#[derive(Clone, Copy)]
pub struct Planned {
    pub plan: Plan,
    pub answer: Result<(), Reason>,
}

// The plan of a mesh, or why there is none: the mesh checks, 20, 21.
fn find_plan(m: &Mesh) -> Result<Plan, Reason>
    ensures { planned_by result ≡ planned m.now }
{
    let mut ends = [0u16; 256];
    let zeros = mesh::split(m, &mut ends);
    mesh::parts_answer(m.nodes, m.count, zeros, &ends)?;
    let table = nets::ways(m, None);
    if let Some(v) = nets::lowest_unreached(m.nodes, &table) {
        return Err(Reason {
            number: 20,
            place: v as usize,
        });
    }
    match search::all_directions(m.count, &ends, table) {
        Ok(directions) => Ok(Plan { directions }),
        Err(k) => Err(Reason {
            number: 21,
            place: k as usize,
        }),
    }
}

// 01's planning: the mesh checks, 20, 21, else the plan.
pub fn plan(m: Mesh) -> Planned
    ensures { result ≡ planned m }
{
    match find_plan(&m) {
        Ok(plan) => Planned {
            plan,
            answer: Ok(()),
        },
        Err(reason) => Planned {
            plan: Plan {
                directions: [0; 256],
            },
            answer: Err(reason),
        },
    }
}

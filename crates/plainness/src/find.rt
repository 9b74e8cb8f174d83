//! Which instances are not plain, and why.

ghost use Rattle.std.specs.Prelude.{◌≡◌, ◌<◌, length, map, IfOk};
ghost use Rattle.shapes.specs.Declarations.{AreFitting};
ghost use Rattle.shapes.specs.Instances.{body_at};
ghost use Rattle.shapes.specs.Views.{declaration_view};
ghost use Rattle.instances.specs.Lists.{AreInstances, instance_at};
ghost use Rattle.instances.specs.Names.{instance_names};
ghost use Rattle.plainness.specs.Edges.{edges_of, obstacles_of, AreOrigins, IsHindered, IsReasonAt, LeadsTo};
ghost use Rattle.plainness.specs.Obstacles.{body_obstacle};
ghost use Rattle.plainness.specs.Unplain.{AreUnplain};

use crate::edges::edges_of;
use crate::law::obstacles_are_exact;
use crate::obstacle::body_obstacle;
use crate::origins::origins_of;
use crate::unplain::{Obstacle, Reason, Unplain};
use instances::Reach;
use shapes::Declaration;
use std::alloc::{AllocError, Global};
use texts::{List, Text};

/// What is found of the instances, by number.
#[derive(Drop)]
struct Found {
    /// Those in the places of each.
    edges: List<List<usize>>,
    /// What is in the way in the body of each.
    obstacles: List<Option<Obstacle>>,
    /// Of each that is not plain one that it reaches and in whose body something is in the way.
    origins: Vec<Option<usize>>,
}

/// What is in the way in the body of the instance of the number.
fn obstacle_at(
    alloc: Global,
    declared: &[Declaration],
    reach: &Reach,
    number: usize,
) -> Result<Option<Obstacle>, AllocError>
    requires fitting { AreFitting (map declaration_view declared.now) }
    requires instances { AreInstances (map declaration_view declared.now) reach.now }
    requires number { number < length reach.now }
    ensures { IfOk result (λ obstacle. obstacle ≡ body_obstacle (map declaration_view declared.now)
        (body_at (map declaration_view declared.now) (instance_at reach.now number))) }
{
    instances::reachable_fit();
    let arguments = reach.arguments(alloc, number)?;
    let body = &declared[reach.declaration(number)].body;
    body_obstacle(alloc, declared, arguments.as_slice(), body)
}

/// What is in the way in the body of each instance.
fn obstacles_of(
    alloc: Global,
    declared: &[Declaration],
    reach: &Reach,
) -> Result<List<Option<Obstacle>>, AllocError>
    requires fitting { AreFitting (map declaration_view declared.now) }
    requires instances { AreInstances (map declaration_view declared.now) reach.now }
    ensures { IfOk result
        (λ obstacles. obstacles ≡ obstacles_of (map declaration_view declared.now) reach.now) }
{
    let mut obstacles = List::new(alloc);
    for number in 0..reach.len() {
        obstacles.push(obstacle_at(alloc, declared, reach, number)?)?;
    }
    Ok(obstacles)
}

/// What is found of the instances.
fn find(alloc: Global, declared: &[Declaration], reach: &Reach) -> Result<Found, AllocError>
    requires fitting { AreFitting (map declaration_view declared.now) }
    requires instances { AreInstances (map declaration_view declared.now) reach.now }
    ensures edges { IfOk result
        (λ found. found.edges ≡ edges_of (map declaration_view declared.now) reach.now) }
    ensures obstacles { IfOk result
        (λ found. found.obstacles ≡ obstacles_of (map declaration_view declared.now) reach.now) }
    ensures origins { IfOk result
        (λ found. AreOrigins found.edges found.obstacles found.origins.items) }
{
    open_types::same_types_are_equal();
    let edges = edges_of(alloc, declared, reach)?;
    let obstacles = obstacles_of(alloc, declared, reach)?;
    let origins = origins_of(alloc, edges.as_slice(), obstacles.as_slice())?;
    Ok(Found {
        edges,
        obstacles,
        origins,
    })
}

/// Why the number with the origin is not plain.
fn reason_at(
    alloc: Global,
    found: &Found,
    names: &[Text],
    number: usize,
    origin: usize,
) -> Result<Reason, AllocError>
    requires within { number < length found.now.obstacles }
    requires names { length names.now ≡ length found.now.obstacles }
    requires leads { LeadsTo found.now.edges number origin }
    requires hindered { IsHindered found.now.obstacles origin }
    ensures { IfOk result
        (IsReasonAt found.now.edges found.now.obstacles names.now number) }
{
    match &found.obstacles.as_slice()[number] {
        Some(obstacle) => Ok(Reason::Body(obstacle.copy(alloc)?)),
        None => Ok(Reason::Reaches(names[origin].copy(alloc)?)),
    }
}

/// The instances that are not plain, each with its reason, in the order of all. The reason is in the body where something
/// there is in the way. The time is linear in the places of all instances, as far as a lookup is constant. It can only want
/// memory.
pub fn unplain_instances(
    alloc: Global,
    declared: &[Declaration],
    reach: &Reach,
    names: &[Text],
) -> Result<List<Unplain>, AllocError>
    requires fitting { AreFitting (map declaration_view declared.now) }
    requires instances { AreInstances (map declaration_view declared.now) reach.now }
    requires names { names.now ≡ instance_names (map declaration_view declared.now) reach.now }
    ensures { IfOk result (AreUnplain (map declaration_view declared.now) reach.now) }
{
    open_types::same_types_are_equal();
    obstacles_are_exact();
    let found = find(alloc, declared, reach)?;
    let mut unplain = List::new(alloc);
    for number in 0..reach.len() {
        if let Some(origin) = found.origins[number] {
            let reason = reason_at(alloc, &found, names, number, origin)?;
            unplain.push(Unplain {
                declaration: reach.declaration(number),
                name: names[number].copy(alloc)?,
                reason,
            })?;
        }
    }
    Ok(unplain)
}

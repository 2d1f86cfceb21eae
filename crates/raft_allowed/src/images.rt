//! Images, and the image after a batch.
ghost use Rattle.std.specs.Prelude.{◌≡◌, ◌&&◌, ◌++◌, is_none, IfOk, OnOk};
ghost use Rattle.std.specs.Ordering.{nat_cmp};
ghost use Rattle.raft_once.specs.Numbers.{shown};
ghost use Rattle.raft_records.specs.Contents.{Contents, after_batch};
ghost use Rattle.raft_records.specs.Validity.{batch_refusal};
ghost use Rattle.raft_allowed.specs.Changes.{batch_in, content_of, item_of};
ghost use Rattle.raft_allowed.specs.Held.{IsHeldBy, groups_after, held_at, held_in, held_of, if_any, refusal_of, with_held, with_one};

use crate::changes::{Change, What};
use crate::groups::{changed, group_at, has_nothing, push_groups, takes};
use raft_log_engine::{GroupImage, Image};
use raft_once::NUMBER_KEY;
use std::alloc::{AllocError, Global};

/// An image after a batch, and whether the image before accepts the batch.
#[derive(Drop)]
pub(crate) struct Applied {
    pub image: Image,
    pub fits: bool,
}

pub(crate) fn after_batch(
    alloc: Global,
    image: &Image,
    batch: &[Change<'_>],
) -> Result<Applied, AllocError>
    ensures { IfOk result (λ applied. (m : Contents) → IsHeldBy m image.now.groups.items
        → IsHeldBy (after_batch m (batch_in batch.now)) applied.image.groups.items
        × (applied.fits ≡ is_none (batch_refusal m (batch_in batch.now)))) }
{
    let mut image = copy_of(alloc, image)?;
    let mut fits = true;
    for change in batch {
        let applied = after_change(alloc, &image, change)?;
        image = applied.image;
        fits = both(fits, applied.fits);
    }
    Ok(Applied { image, fits })
}

fn both(first: bool, second: bool) -> bool
    ensures { result ≡ (first && second) }
{
    first && second
}

fn copy_of(alloc: Global, image: &Image) -> Result<Image, AllocError>
    ensures { IfOk result (λ copy. held_of copy.groups.items ≡ held_of image.now.groups.items) }
{
    let mut groups = Vec::new(alloc);
    push_groups(alloc, &mut groups, &image.groups, None, None)?;
    Ok(Image { groups })
}

fn after_change(alloc: Global, image: &Image, change: &Change<'_>) -> Result<Applied, AllocError>
    ensures value { IfOk result (λ applied. held_of applied.image.groups.items
        ≡ groups_after (held_of image.now.groups.items) (item_of change.now)) }
    ensures fits { IfOk result (λ applied. applied.fits
        ≡ is_none (refusal_of (held_at change.now.group (held_of image.now.groups.items))
        (content_of change.now.what))) }
{
    let old = group_at(alloc, &image.groups, change.group)?;
    let fits = takes(&old, &change.what);
    let new = changed(alloc, &old, &change.what)?;
    let image = with_group(alloc, &image.groups, new)?;
    Ok(Applied { image, fits })
}

// The groups with this image in place of its group's old one.
fn with_group(alloc: Global, groups: &[GroupImage], image: GroupImage) -> Result<Image, AllocError>
    ensures { IfOk result (λ new. held_of new.groups.items
        ≡ with_held image.group (held_in image) (held_of groups.now)) }
{
    let group = image.group;
    let mut new = Vec::new(alloc);
    push_groups(alloc, &mut new, groups, None, Some(group))?;
    push_any(&mut new, image)?;
    push_groups(alloc, &mut new, groups, Some(group), None)?;
    Ok(Image { groups: new })
}

// Adds the group's image if it isn't empty.
fn push_any(groups: &mut Vec<GroupImage>, image: GroupImage) -> Result<(), AllocError>
    ensures { OnOk result (held_of groups.new.items ≡ held_of groups.old.items
        ++ with_one image.group (if_any (held_in image))) }
{
    if has_nothing(&image) {
        return Ok(());
    }
    groups.push(image)?;
    Ok(())
}

/// The image without the numbers that groups keep, as reads show it.
pub(crate) fn shown(alloc: Global, image: &Image) -> Result<Image, AllocError>
    ensures { IfOk result (λ new. (m : Contents) → IsHeldBy m image.now.groups.items
        → IsHeldBy (shown m) new.groups.items) }
{
    let key = NUMBER_KEY;
    let mut deletes = Vec::new(alloc);
    for group in &image.groups {
        deletes.push(Change {
            group: group.group,
            what: What::Delete(&key),
        })?;
    }
    let applied = after_batch(alloc, image, &deletes)?;
    Ok(applied.image)
}

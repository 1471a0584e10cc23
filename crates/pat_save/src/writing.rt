//! The image of saved patterns.
ghost use Rattle.std.specs.Prelude.{◌≡◌, ◌≤◌, ◌<◌, ◌++◌, length, IfErr, IfOk, OnOk};
ghost use Rattle.pat_save.specs.Checked.{AreChecked, IsCheckedSaved};
ghost use Rattle.pat_save.specs.Image.{image_of, record_bytes, text_bytes};
ghost use Rattle.pat_save.specs.Sized.{AreSized, IsSized};
ghost use Rattle.pat_save.specs.declared.errors.SaveError.TheVariants as save;

use crate::errors::SaveError;
use crate::fields::put_number;
use crate::nodes::put_nodes;
use crate::saved::{Image, Saved, SavedList};
use crate::tables::{put_options, put_tables};
use pat_tree::Memory;
use std::alloc::Global;

/// The most bytes of an image: 16 MB.
pub(crate) const LARGEST: usize = 16_777_216;

fn put_text(out: &mut Vec<u8>, text: &[u8]) -> Result<(), Memory>
    requires { length text.now ≤ 65536 }
    ensures { OnOk result (out.new.items ≡ out.old.items ++ text_bytes text.now) }
{
    put_number(out, text.len() as u32)?;
    out.extend_from_slice(text)?;
    Ok(())
}

fn put_record(out: &mut Vec<u8>, saved: &Saved) -> Result<(), Memory>
    requires { IsCheckedSaved saved.now }
    ensures bytes { OnOk result (out.new.items ≡ out.old.items ++ record_bytes saved.now) }
    ensures sized { OnOk result (IsSized saved.now.tree) }
{
    put_options(out, saved.tree.options())?;
    put_text(out, saved.text.bytes())?;
    put_number(out, saved.tree.groups())?;
    put_tables(out, &saved.tree)?;
    put_nodes(out, &saved.tree)
}

/// The image, however long it is.
#[tactic(auto, unfolding(crate::specs::Image::image_of))]
fn whole_image(alloc: Global, list: &SavedList) -> Result<Vec<u8>, Memory>
    requires { AreChecked list.now }
    ensures image { IfOk result (λ image. image.items ≡ image_of list.now) }
    ensures sized { OnOk result (AreSized list.now) }
{
    let mut out = Vec::new(alloc);
    out.extend_from_slice(b"PCP1")?;
    put_number(&mut out, list.len() as u32)?;
    let patterns = list.as_slice();
    for saved in patterns {
        put_record(&mut out, saved)?;
    }
    Ok(out)
}

/// The image of at most 20 checked patterns, each with a text of at most 65,536 bytes: the bytes
/// that this crate's page lists, of which [`read`](crate::read) makes the same patterns but for the
/// places of their nodes. `TooLarge` comes exactly where these are more than 16,777,216. Want
/// of memory may come at any list.
pub fn write(alloc: Global, list: &SavedList) -> Result<Image, SaveError>
    requires { AreChecked list.now }
    ensures image { IfOk result (λ image. image ≡ image_of list.now) }
    ensures sized { OnOk result (AreSized list.now) }
    ensures fits { IfOk result (λ image. length image ≤ 16777216) }
    ensures large { IfErr result (λ e. e ≡ save.TooLarge → 16777216 < length (image_of list.now)) }
{
    let image = whole_image(alloc, list)?;
    if image.len() > LARGEST {
        return Err(SaveError::TooLarge);
    }
    Ok(Image::from_vec(image))
}

//! Copies of constants.

ghost use Rattle.std.specs.Prelude.{◌≡◌, IfOk};
ghost use Rattle.const_attrs.specs.Trees.{attr_data, attrs_data};

use crate::const_attr::ConstAttr;
use std::alloc::{AllocError, Global};

impl ConstAttr {
    /// A copy, whose data are those of its source.
    #[cycle(clone)]
    pub fn clone(&self, alloc: Global) -> Result<ConstAttr, AllocError>
        ensures { IfOk result (λ c. attr_data c ≡ attr_data self.now) }
    {
        match self {
            ConstAttr::Integer(ty, value) => Ok(ConstAttr::Integer(*ty, *value)),
            ConstAttr::Zero(ty) => Ok(ConstAttr::Zero(*ty)),
            ConstAttr::Undef(ty) => Ok(ConstAttr::Undef(*ty)),
            ConstAttr::Poison(ty) => Ok(ConstAttr::Poison(*ty)),
            ConstAttr::Bytes(bytes) => {
                let mut copy = Vec::new(alloc);
                copy.extend_from_slice(bytes.as_slice())?;
                Ok(ConstAttr::Bytes(copy))
            }
            ConstAttr::Aggregate(elements, ty) => {
                Ok(ConstAttr::Aggregate(ConstAttr::clone_each(alloc, elements.as_slice())?, *ty))
            }
            ConstAttr::Splat(element, ty) => {
                let copy = (**element).clone(alloc)?;
                Ok(ConstAttr::Splat(Box::new(alloc, copy)?, *ty))
            }
        }
    }

    /// Copies of some constants, in their order.
    #[cycle(clone)]
    fn clone_each(alloc: Global, elements: &[ConstAttr]) -> Result<Vec<ConstAttr>, AllocError>
        ensures { IfOk result (λ cs. attrs_data cs.items ≡ attrs_data elements.now) }
    {
        let mut copies = Vec::with_capacity(alloc, elements.len())?;
        for element in elements {
            copies.push(element.clone(alloc)?)?;
        }
        Ok(copies)
    }
}

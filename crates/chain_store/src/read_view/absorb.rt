// How a copy takes in news.
ghost use Rattle.chain_store.specs.Copies.{shape_of, with_news};

use crate::read_view::copied::{Copied, News};
use crate::read_view::name::Shape;
use left_right::Absorb;
use std::alloc::AllocError;

impl Absorb<News> for Copied {
    type State = Shape;

    ghost state = { shape_of };

    ghost applied = { with_news };

    fn absorb_first(&mut self, operation: &News, _other: &Copied) -> Result<(), AllocError> {
        let Some(rest) = operation.first.moved() else {
            return Err(AllocError);
        };
        match self.shown.add_shared(&operation.view) {
            Ok(()) => {
                self.rest = rest;
                Ok(())
            }
            Err(_) => {
                operation.first.take_back(rest);
                Err(AllocError)
            }
        }
    }

    fn absorb_second(&mut self, operation: News, _other: &Copied) -> Result<(), News> {
        let News {
            view,
            first,
            second,
        } = operation;
        match self.shown.add(view) {
            Ok(()) => {
                self.rest = second;
                Ok(())
            }
            Err(view) => Err(News {
                view,
                first,
                second,
            }),
        }
    }
}
